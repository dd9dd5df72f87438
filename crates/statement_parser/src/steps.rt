//! The step that all functions of the parser share: they return a fault.

/// The result of a call of the parser. If it is a fault, the values named after the call are dropped and the fault is
/// returned.
macro_rules! read {
    ($call:expr) => {
        match $call {
            Ok(read) => read,
            Err(fault) => return Err(fault),
        }
    };
    ($call:expr, $($owned:ident),+) => {
        match $call {
            Ok(read) => read,
            Err(fault) => {
                $(drop($owned);)+
                return Err(fault);
            }
        }
    };
}

pub(crate) use read;
