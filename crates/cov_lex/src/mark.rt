ghost use Rattle.std.specs.Prelude.{◌≡◌, ◌≤◌, length, IfSome};
ghost use Rattle.cov_syntax.specs.Marks.{mark_spelling};
ghost use Rattle.cov_syntax.specs.Tokens.{front_mark};

use crate::bytes::byte;
use cov_syntax::Mark;

/// The longest mark at the front.
#[tactic(auto, unfolding(cov_syntax::specs::Tokens::front_mark))]
pub fn mark(text: &[u8]) -> Option<Mark>
    ensures value { result ≡ front_mark text.now }
    ensures within { IfSome result (λ m. length (mark_spelling m) ≤ length text.now) }
{
    let (first, second, third) = (byte(text, 0), byte(text, 1), byte(text, 2));
    match first {
        b'<' if second == b'-' && third == b'>' => Some(Mark::Iff),
        b'.' if second == b'.' => Some(Mark::Dots),
        b':' if second == b'=' => Some(Mark::Becomes),
        b'!' if second == b'=' => Some(Mark::NotEqual),
        b'<' if second == b'=' => Some(Mark::LessEqual),
        b'>' if second == b'=' => Some(Mark::GreaterEqual),
        b'-' if second == b'>' => Some(Mark::Implies),
        b'(' => Some(Mark::OpenParen),
        b')' => Some(Mark::CloseParen),
        b'{' => Some(Mark::OpenBrace),
        b'}' => Some(Mark::CloseBrace),
        b'[' => Some(Mark::OpenBracket),
        b']' => Some(Mark::CloseBracket),
        b',' => Some(Mark::Comma),
        b';' => Some(Mark::Semicolon),
        b':' => Some(Mark::Colon),
        b'.' => Some(Mark::Dot),
        b'=' => Some(Mark::Equal),
        b'<' => Some(Mark::Less),
        b'>' => Some(Mark::Greater),
        b'+' => Some(Mark::Plus),
        b'-' => Some(Mark::Minus),
        b'*' => Some(Mark::Star),
        b'/' => Some(Mark::Slash),
        b'!' => Some(Mark::Not),
        b'&' => Some(Mark::And),
        b'|' => Some(Mark::Or),
        _ => None,
    }
}
