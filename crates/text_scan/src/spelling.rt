//! The look-up of a keyword by its text.
ghost use Rattle.std.specs.Prelude.{◌≡◌, map};
ghost use Rattle.text_scan.specs.Keywords.{keyword_text, keywords};
ghost use Rattle.text_scan.specs.Text.{lookup};

use crate::keywords::Keyword;

const KEYWORDS: [Keyword; 30] = [
    Keyword::Class,
    Keyword::Var,
    Keyword::Method,
    Keyword::Local,
    Keyword::Begin,
    Keyword::Result,
    Keyword::Post,
    Keyword::End,
    Keyword::Body,
    Keyword::If,
    Keyword::Then,
    Keyword::Else,
    Keyword::Fi,
    Keyword::While,
    Keyword::Do,
    Keyword::Od,
    Keyword::Answer,
    Keyword::Select,
    Keyword::When,
    Keyword::Write,
    Keyword::New,
    Keyword::SelfWord,
    Keyword::Nil,
    Keyword::True,
    Keyword::False,
    Keyword::Not,
    Keyword::And,
    Keyword::Or,
    Keyword::Int,
    Keyword::Bool,
];

/// Reports the first of the keywords that has this text.
fn first_keyword(keywords: &[Keyword], word: &[u8]) -> Option<Keyword>
    ensures { result ≡ lookup (map (λ k. (keyword_text k, k)) keywords.now) word.now }
{
    for keyword in keywords {
        if keyword.text() == word {
            return Some(*keyword);
        }
    }
    None
}

/// Reports the keyword with this text, or `None` if there is none.
pub fn keyword(word: &[u8]) -> Option<Keyword>
    ensures { result ≡ lookup keywords word.now }
{
    first_keyword(&KEYWORDS, word)
}
