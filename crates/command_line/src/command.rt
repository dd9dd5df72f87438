//! The commands of the command line.

/// The output of a run.
#[derive(Clone, Copy)]
pub enum Show {
    /// Each line of its record.
    Record,
    /// The items that its objects write, and the end line.
    Writes,
    /// The status of its objects at its end, the cycles of calls among them, and the end line.
    Report,
}

/// The output that a command makes of a program.
#[derive(Clone, Copy)]
pub enum Ask {
    /// Its canonical text.
    Canonical,
    /// The listing of its code.
    Listing,
    /// The bytes of its object code file.
    File,
}

/// The names of the three input files of a run.
#[derive(Clone, Copy)]
pub struct Files<'a> {
    pub program: &'a str,
    pub placement: &'a str,
    pub schedule: &'a str,
}

/// A command and its arguments.
#[derive(Clone, Copy)]
pub enum Command<'a> {
    /// Runs the program with the placement and the schedule.
    Run {
        show: Show,
        files: Files<'a>,
    },
    /// Makes an output of the program of this name.
    Program {
        ask: Ask,
        name: &'a str,
    },
    /// Runs the ring with this number of cells, from 2 to 1000, and writes its counts.
    Ring {
        cells: u32,
    },
    /// Converts the record of this name, of either form, to the second form.
    Convert {
        name: &'a str,
    },
    /// Checks whether the record is a run of the program.
    Check {
        program: &'a str,
        record: &'a str,
    },
    /// Runs the object code file `unit` with the placement and the schedule.
    Load {
        unit: &'a str,
        placement: &'a str,
        schedule: &'a str,
    },
}
