//! The look-up of a sign by its text.
ghost use Rattle.std.specs.Prelude.{◌≡◌, map};
ghost use Rattle.pool_syntax.specs.Spelling.{sign_text};
ghost use Rattle.text_scan.specs.Text.{lookup};
ghost use Rattle.pool_syntax.specs.Tokens.{signs};

use pool_syntax::Sign;

const SIGNS: [Sign; 19] = [
    Sign::Becomes,
    Sign::Colon,
    Sign::Semicolon,
    Sign::Comma,
    Sign::LeftParen,
    Sign::RightParen,
    Sign::Bang,
    Sign::BangBang,
    Sign::Equal,
    Sign::Differs,
    Sign::Less,
    Sign::LessEq,
    Sign::More,
    Sign::MoreEq,
    Sign::Plus,
    Sign::Minus,
    Sign::Star,
    Sign::Slash,
    Sign::Percent,
];

/// Reports the first of the signs that has this text.
fn first_sign(signs: &[Sign], text: &[u8]) -> Option<Sign>
    ensures { result ≡ lookup (map (λ s. (sign_text s, s)) signs.now) text.now }
{
    for sign in signs {
        if sign.text() == text {
            return Some(*sign);
        }
    }
    None
}

/// Reports the sign with this text, or `None` if there is none.
pub fn sign(text: &[u8]) -> Option<Sign>
    ensures { result ≡ lookup signs text.now }
{
    first_sign(&SIGNS, text)
}
