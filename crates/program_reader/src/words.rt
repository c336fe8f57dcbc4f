//! Words: runs of letters, digits and `_`.
ghost use Rattle.std.specs.Prelude.{◌≡◌, min, map, option_map, true, if◌then◌else◌};
ghost use Rattle.std.specs.Char.{is_ascii_digit, is_ascii_lowercase};
ghost use Rattle.std.specs.List.{list_all};
ghost use Rattle.std.specs.Str.Parse.{digits_value};
ghost use Rattle.program_tree.specs.TokenMeaning.{token_of};
ghost use Rattle.program_tree.specs.Tokens.{Name, Bad};
ghost use Rattle.program_reader.specs.Front.{token_entry};
ghost use Rattle.program_tree.specs.Words as spec;

use program_tree::keyword::Keyword;
use program_tree::token::Token;

/// A text and its token.
pub(crate) type Entry<'a> = (&'a [u8], Token<'a>);

/// The value that represents all numbers above 65,535.
const TOO_LARGE: u32 = 65_536;

/// The greatest number of characters that a name may have.
const LONGEST_NAME: usize = 16;

/// The words that a program can't use as names.
static KEYWORDS: [Entry<'static>; 58] = [
    (b"event", Token::Keyword(Keyword::Event)),
    (b"semaphore", Token::Keyword(Keyword::Semaphore)),
    (b"process", Token::Keyword(Keyword::Process)),
    (b"autostart", Token::Keyword(Keyword::Autostart)),
    (b"receiver", Token::Keyword(Keyword::Receiver)),
    (b"code", Token::Keyword(Keyword::Code)),
    (b"var", Token::Keyword(Keyword::Var)),
    (b"etimer", Token::Keyword(Keyword::Etimer)),
    (b"ctimer", Token::Keyword(Keyword::Ctimer)),
    (b"thread", Token::Keyword(Keyword::Thread)),
    (b"onpoll", Token::Keyword(Keyword::OnPoll)),
    (b"onexit", Token::Keyword(Keyword::OnExit)),
    (b"body", Token::Keyword(Keyword::Body)),
    (b"print", Token::Keyword(Keyword::Print)),
    (b"send", Token::Keyword(Keyword::Send)),
    (b"if", Token::Keyword(Keyword::If)),
    (b"else", Token::Keyword(Keyword::Else)),
    (b"while", Token::Keyword(Keyword::While)),
    (b"wait_until", Token::Keyword(Keyword::WaitUntil)),
    (b"wait_while", Token::Keyword(Keyword::WaitWhile)),
    (b"yield", Token::Keyword(Keyword::Yield)),
    (b"yield_until", Token::Keyword(Keyword::YieldUntil)),
    (b"spawn", Token::Keyword(Keyword::Spawn)),
    (b"restart", Token::Keyword(Keyword::Restart)),
    (b"exit", Token::Keyword(Keyword::Exit)),
    (b"pause", Token::Keyword(Keyword::Pause)),
    (b"acquire", Token::Keyword(Keyword::Acquire)),
    (b"signal", Token::Keyword(Keyword::Signal)),
    (b"post", Token::Keyword(Keyword::Post)),
    (b"broadcast", Token::Keyword(Keyword::Broadcast)),
    (b"synch", Token::Keyword(Keyword::Synch)),
    (b"poll", Token::Keyword(Keyword::Poll)),
    (b"start", Token::Keyword(Keyword::Start)),
    (b"kill", Token::Keyword(Keyword::Kill)),
    (b"set", Token::Keyword(Keyword::Set)),
    (b"reset", Token::Keyword(Keyword::Reset)),
    (b"restart_timer", Token::Keyword(Keyword::RestartTimer)),
    (b"stop", Token::Keyword(Keyword::Stop)),
    (b"into", Token::Keyword(Keyword::Into)),
    (b"continue", Token::Keyword(Keyword::Continue)),
    (b"msg", Token::Keyword(Keyword::Msg)),
    (b"com", Token::Keyword(Keyword::Com)),
    (b"packet", Token::Keyword(Keyword::Packet)),
    (b"init", Token::Keyword(Keyword::Init)),
    (b"exited", Token::Keyword(Keyword::Exited)),
    (b"timer", Token::Keyword(Keyword::Timer)),
    (b"data", Token::Keyword(Keyword::Data)),
    (b"from", Token::Keyword(Keyword::From)),
    (b"now", Token::Keyword(Keyword::Now)),
    (b"self", Token::Keyword(Keyword::Own)),
    (b"is", Token::Keyword(Keyword::Is)),
    (b"fired", Token::Keyword(Keyword::Fired)),
    (b"expired", Token::Keyword(Keyword::Expired)),
    (b"gone", Token::Keyword(Keyword::Gone)),
    (b"running", Token::Keyword(Keyword::Running)),
    (b"count", Token::Keyword(Keyword::Count)),
    (b"radio", Token::Keyword(Keyword::Radio)),
    (b"all", Token::Keyword(Keyword::All)),
];

/// Returns `true` for `a` to `z`, `0` to `9` and `_`.
pub(crate) fn is_word_byte(byte: u8) -> bool
    ensures value { result ≡ spec.is_word_byte byte }
{
    byte.is_ascii_lowercase() || byte.is_ascii_digit() || byte == b'_'
}

fn are_digits(word: &[u8]) -> bool
    ensures value { result ≡ list_all is_ascii_digit word.now }
{
    word.iter().all(|byte| byte.is_ascii_digit())
}

/// Returns `true` for digits without a leading zero, and for `0`.
fn is_number(word: &[u8]) -> bool
    ensures number { result ≡ spec.is_number word.now }
    ensures digits { result ≡ true → list_all is_ascii_digit word.now ≡ true }
{
    are_digits(word) && (word.first() != Some(&b'0') || word.len() == 1)
}

/// The value of the digits, or `TOO_LARGE` if their value is above it.
fn number_value(digits: &[u8]) -> u32
    requires are_digits { list_all is_ascii_digit digits.now ≡ true }
    ensures value { result ≡ min (digits_value 10 digits.now) 65536 }
{
    let mut value = 0;
    for digit in digits {
        value = (10 * value + u32::from(*digit - b'0')).min(TOO_LARGE);
    }
    value
}

fn begins_lowercase(word: &[u8]) -> bool
    ensures value { result ≡ spec.begins is_ascii_lowercase word.now }
{
    match word {
        [first, ..] => first.is_ascii_lowercase(),
        [] => false,
    }
}

/// The token that a table has for a text.
fn lookup(table: &'static [Entry<'static>], word: &[u8]) -> Option<Token<'static>>
    ensures value { option_map token_of result ≡ spec.lookup (map token_entry table.now) word.now }
{
    table
        .iter()
        .find(|entry| entry.0 == word)
        .map(|entry| entry.1)
}

/// The token of a name. It is a bad token if the name is too long or doesn't begin with a letter.
fn name<'a>(word: &'a [u8]) -> Token<'a>
    requires word_bytes { list_all spec.is_word_byte word.now ≡ true }
    ensures value { token_of result ≡ (if spec.is_name word.now then Name word.now else Bad) }
{
    if !begins_lowercase(word) || word.len() > LONGEST_NAME {
        return Token::Bad;
    }
    match str::from_utf8(word) {
        Ok(name) => Token::Name(name),
        Err(_) => Token::Bad,
    }
}

/// The token of a keyword.
fn keyword(word: &[u8]) -> Option<Token<'static>>
    ensures value { option_map token_of result ≡ spec.lookup spec.keywords word.now }
{
    lookup(&KEYWORDS, word)
}

/// The token of a word.
pub(crate) fn word_token<'a>(word: &'a [u8]) -> Token<'a>
    requires word_bytes { list_all spec.is_word_byte word.now ≡ true }
    ensures value { token_of result ≡ spec.word_token word.now }
{
    if is_number(word) {
        return Token::Number(number_value(word));
    }
    match keyword(word) {
        Some(token) => token,
        None => name(word),
    }
}
