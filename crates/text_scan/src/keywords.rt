//! The keywords of the language and their texts.
ghost use Rattle.std.specs.Prelude.{◌≡◌};
ghost use Rattle.text_scan.specs.Keywords.{keyword_text};

/// A keyword of the language.
#[derive(Clone, Copy, PartialEq, Eq)]
pub enum Keyword {
    Class,
    Var,
    Method,
    Local,
    Begin,
    Result,
    Post,
    End,
    Body,
    If,
    Then,
    Else,
    Fi,
    While,
    Do,
    Od,
    Answer,
    Select,
    When,
    Write,
    New,
    SelfWord,
    Nil,
    True,
    False,
    Not,
    And,
    Or,
    Int,
    Bool,
}

impl Keyword {
    /// Reports the text of the keyword.
    pub fn text(self) -> &'static [u8]
        ensures { result.now ≡ keyword_text self }
    {
        match self {
            Keyword::Class => b"class",
            Keyword::Var => b"var",
            Keyword::Method => b"method",
            Keyword::Local => b"local",
            Keyword::Begin => b"begin",
            Keyword::Result => b"result",
            Keyword::Post => b"post",
            Keyword::End => b"end",
            Keyword::Body => b"body",
            Keyword::If => b"if",
            Keyword::Then => b"then",
            Keyword::Else => b"else",
            Keyword::Fi => b"fi",
            Keyword::While => b"while",
            Keyword::Do => b"do",
            Keyword::Od => b"od",
            Keyword::Answer => b"answer",
            Keyword::Select => b"select",
            Keyword::When => b"when",
            Keyword::Write => b"write",
            Keyword::New => b"new",
            Keyword::SelfWord => b"self",
            Keyword::Nil => b"nil",
            Keyword::True => b"true",
            Keyword::False => b"false",
            Keyword::Not => b"not",
            Keyword::And => b"and",
            Keyword::Or => b"or",
            Keyword::Int => b"Int",
            Keyword::Bool => b"Bool",
        }
    }
}
