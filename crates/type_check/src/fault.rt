//! The class faults, and the least of those that were noted.
ghost use Rattle.std.specs.Prelude.{◌≡◌, [], ◌∷◌};
ghost use Rattle.type_check.specs.NotedFaults.{is_below, Notes};
ghost use Rattle.type_check.specs.PairOf.{pair_of};

use thiserror::Error;

/// A class fault, with the number of its token, counted from 0.
#[derive(Clone, Copy, Debug, Error)]
pub enum ClassFault {
    /// An earlier class has the name of this class.
    #[error("ClassTwice at token {token}")]
    ClassTwice { token: u32 },
    /// The class of a declared type or of a `new` does not exist.
    #[error("UnknownClass at token {token}")]
    UnknownClass { token: u32 },
    /// An earlier variable of the class has the name of this variable.
    #[error("VariableTwice at token {token}")]
    VariableTwice { token: u32 },
    /// An earlier method of the class has the name of this method.
    #[error("MethodTwice at token {token}")]
    MethodTwice { token: u32 },
    /// An earlier parameter or local of the method has the name of this one.
    #[error("LocalTwice at token {token}")]
    LocalTwice { token: u32 },
    /// The name is no parameter or local of the method, and no variable of the class.
    #[error("UnknownVariable at token {token}")]
    UnknownVariable { token: u32 },
    /// The class does not have the method of the call or send.
    #[error("UnknownMethod at token {token}")]
    UnknownMethod { token: u32 },
    /// The number of arguments of a call or send is not the number of parameters.
    #[error("ArgumentCount at token {token}")]
    ArgumentCount { token: u32 },
    /// The sort of an expression does not fit its place.
    #[error("TypeDiffers at token {token}")]
    TypeDiffers { token: u32 },
    /// A call or send of a method without a result is used where a value is required.
    #[error("NoResult at token {token}")]
    NoResult { token: u32 },
    /// A name in an answer list is no method of the class, or is already in the list.
    #[error("AnswerName at token {token}")]
    AnswerName { token: u32 },
    /// A limit is exceeded: the 257th class; the 65th variable or method of a class; the 9th parameter, or the 33rd
    /// parameter or local of a method; an expression that begins with 64 or more operands held.
    #[error("Limit at token {token}")]
    Limit { token: u32 },
    /// Out of memory, which is no fault of the program.
    #[error("Memory")]
    Memory,
}

impl ClassFault {
    fn token(self) -> u32
        ensures { result ≡ (pair_of self).0 }
    {
        match self {
            ClassFault::ClassTwice { token } => token,
            ClassFault::UnknownClass { token } => token,
            ClassFault::VariableTwice { token } => token,
            ClassFault::MethodTwice { token } => token,
            ClassFault::LocalTwice { token } => token,
            ClassFault::UnknownVariable { token } => token,
            ClassFault::UnknownMethod { token } => token,
            ClassFault::ArgumentCount { token } => token,
            ClassFault::TypeDiffers { token } => token,
            ClassFault::NoResult { token } => token,
            ClassFault::AnswerName { token } => token,
            ClassFault::Limit { token } => token,
            ClassFault::Memory => 0,
        }
    }

    fn number(self) -> u8
        ensures { result ≡ (pair_of self).1 }
    {
        match self {
            ClassFault::ClassTwice { .. } => 1,
            ClassFault::UnknownClass { .. } => 2,
            ClassFault::VariableTwice { .. } => 3,
            ClassFault::MethodTwice { .. } => 4,
            ClassFault::LocalTwice { .. } => 5,
            ClassFault::UnknownVariable { .. } => 6,
            ClassFault::UnknownMethod { .. } => 7,
            ClassFault::ArgumentCount { .. } => 8,
            ClassFault::TypeDiffers { .. } => 9,
            ClassFault::NoResult { .. } => 10,
            ClassFault::AnswerName { .. } => 11,
            ClassFault::Limit { .. } => 12,
            ClassFault::Memory => 13,
        }
    }

    fn is_below(self, other: ClassFault) -> bool
        ensures { result ≡ is_below (pair_of self) (pair_of other) }
    {
        self.token() < other.token()
            || self.token() == other.token() && self.number() < other.number()
    }
}

/// Notes a fault. `first` becomes this fault if it is none or a greater one.
pub fn note(first: &mut Option<ClassFault>, fault: ClassFault)
    ensures { Notes first.old first.new (pair_of fault ∷ []) }
{
    match *first {
        Some(earlier) if !fault.is_below(earlier) => {}
        _ => *first = Some(fault),
    }
}
