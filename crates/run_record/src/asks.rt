//! The request numbers of lines, computed as the lines are made.
ghost use Rattle.std.specs.Prelude.{◌≡◌, ◌≤◌, ◌<◌, ◌*◌, ℕ, [], ◌∷◌, List, get_or, length, IfOk, Some, true};
ghost use Rattle.run_types.specs.declared.types.Line.{Line};
ghost use Rattle.run_types.specs.declared.types.Line.TheVariants as R;
ghost use Rattle.run_types.specs.declared.types.Event.{Event as OneEvent};
ghost use Rattle.run_types.specs.Asks.{request_number_of, asker_of, is_post_of};

use record_writer::{asker_of, poster};
use run_types::{Event, Line, What, node_of, slot_of};
use std::alloc::{AllocError, Global};

/// The number of the latest post of each object, for at most 64 nodes with at most 4096 objects each. Only `make`
/// allocates.
#[derive(Drop)]
pub struct Asks {
    nodes: u32,
    objects: u32,
    last: Vec<u32>,
    ghost size: { length last.items ≡ nodes * objects },
    ghost few_nodes: { nodes ≤ 64 },
    ghost few_objects: { objects ≤ 4096 },
}

impl Asks {
    ghost use Rattle.run_record.specs.Table.{AreInTable, HasLast, InTable, place_of};

    /// Makes a table in which nothing was posted, for 1 to 64 nodes with 1 to 4096 objects each. Returns `Err` if
    /// memory runs out.
    pub fn make(alloc: Global, nodes: u32, objects: u32) -> Result<Asks, AllocError>
        requires nodes { (1 ≤ nodes) × (nodes ≤ 64) }
        requires objects { (1 ≤ objects) × (objects ≤ 4096) }
        ensures size { IfOk result (λ a. (a.nodes ≡ nodes) × (a.objects ≡ objects)) }
        ensures none { IfOk result (λ a. HasLast a []) }
    {
        let mut last = Vec::new(alloc);
        last.resize(nodes as usize * objects as usize, 0)?;
        Ok(Asks {
            nodes,
            objects,
            last,
        })
    }

    /// The index of an object in the table.
    fn place(&self, object: u32) -> usize
        requires { InTable self.now object }
        ensures place { result ≡ place_of self.now object }
        ensures inside { result < length self.now.last.items }
    {
        node_of(object) as usize * self.objects as usize + slot_of(object) as usize
    }

    /// The request number of the line of an event after the lines so far, or 0 if it answers no request.
    fn number(&self, event: Event, what: &What) -> u32
        requires { (o : ℕ) → asker_of event what.now ≡ Some o → InTable self.now o }
        ensures { (earlier : List Line) (n : ℕ) → HasLast self.now earlier → result ≡ request_number_of earlier (R.Event n event what.now) }
    {
        match asker_of(event, what) {
            None => 0,
            Some(object) => self.last[self.place(object)],
        }
    }

    /// Stores the number of an object's post.
    fn put(&mut self, object: u32, number: u32)
        requires { InTable self.old object }
        ensures posted { get_or self.new.last.items (place_of self.new object) 0 ≡ number }
        ensures others { (o : ℕ) → InTable self.new o → (o ≡ object → ⊥) → get_or self.new.last.items (place_of self.new o) 0 ≡ get_or self.old.last.items (place_of self.old o) 0 }
        ensures size { (self.new.nodes ≡ self.old.nodes) × (self.new.objects ≡ self.old.objects) }
    {
        let place = self.place(object);
        self.last[place] = number;
    }

    /// Adds the line of an event to the lines so far.
    fn keep(&mut self, number: u32, what: &What)
        requires { (o : ℕ) → is_post_of o what.now ≡ true → InTable self.old o }
        ensures kept { (earlier : List Line) (e : OneEvent) → HasLast self.old earlier → HasLast self.new (R.Event number e what.now ∷ earlier) }
        ensures size { (self.new.nodes ≡ self.old.nodes) × (self.new.objects ≡ self.old.objects) }
    {
        match poster(what) {
            None => {}
            Some(object) => self.put(object, number),
        }
    }

    /// Returns the request number of the line of an event after the lines so far, or 0 if it answers no request. Adds
    /// the line to them. Requires that the objects of the request are in the table.
    pub fn of_event(&mut self, number: u32, event: Event, what: &What) -> u32
        requires { AreInTable self.old (R.Event number event what.now) }
        ensures number { (earlier : List Line) → HasLast self.old earlier
            → (result ≡ request_number_of earlier (R.Event number event what.now)) × HasLast self.new (R.Event number event what.now ∷ earlier) }
        ensures size { (self.new.nodes ≡ self.old.nodes) × (self.new.objects ≡ self.old.objects) }
    {
        let ask = self.number(event, what);
        self.keep(number, what);
        ask
    }

    /// Returns the request number of a line after the lines so far, or 0 if it answers no request. Adds the line to
    /// them. Requires that the objects of the request are in the table.
    pub fn of(&mut self, line: &Line) -> u32
        requires { AreInTable self.old line.now }
        ensures number { (earlier : List Line) → HasLast self.old earlier → (result ≡ request_number_of earlier line.now) × HasLast self.new (line.now ∷ earlier) }
        ensures size { (self.new.nodes ≡ self.old.nodes) × (self.new.objects ≡ self.old.objects) }
    {
        match line {
            Line::Event {
                number,
                event,
                what,
            } => self.of_event(*number, *event, what),
            _ => 0,
        }
    }
}
