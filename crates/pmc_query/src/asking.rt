//! What a text asks, and the request that it makes.

ghost use Rattle.std.specs.Prelude.{◌≡◌, ◌≤◌, ◌<◌, ◌+◌, ◌-◌, ◌*◌, ◌^◌, ◌==◌, ◌++◌, ◌∷◌, length, IfSome, OnOk, OnErr, IsTrue};
ghost use Rattle.std.specs.Option.{option_copied};
ghost use Rattle.std.specs.Char.{is_ascii_digit};
ghost use Rattle.std.specs.List.{list_all, position};
ghost use Rattle.ptp_management.specs.ManagementQueries.{action_asked, action_named, aimed, asked_by, asked_of, name_asked, named_asked, is_number, number_of_digits, request_octets, request_of, target_asked, target_named, words_of};
ghost use Rattle.pmc_query.specs.QueryWords.{words_behind};

use ptp_base::{ClockId, NoMemory, Octets, PortId};
use ptp_management::{Action, AskError, Managed, ManagementId, Request, Tlv};
use ptp_tlv::{named, number_of, write};
use std::alloc::Global;

/// The port that stands for all ports (IEEE 1588-2019, 15.4.1.3).
pub const ALL_PORTS: u16 = 65535;

/// The clock that stands for all clocks (15.4.1.3).
pub const ALL_CLOCKS: ClockId = ClockId { id: u64::MAX };

// Where the first space stands.
fn space_in(text: &[u8]) -> Option<usize>
    ensures place { result ≡ position (λ c. c == 32) text.now }
    ensures within { IfSome result (λ at. at < length text.now) }
{
    text.iter().position(|c| *c == b' ')
}

// The first word of a text, and what stands behind its space, where there is one.
fn first_word(text: &[u8]) -> (&[u8], Option<&[u8]>)
    ensures { words_of text.now ≡ result.0.now ∷ words_behind (option_copied result.1) }
{
    match space_in(text) {
        None => (text, None),
        Some(at) => (&text[..at], Some(&text[at + 1..])),
    }
}

// What a word asks to be done, in any case of letters.
fn action_named(word: &[u8]) -> Option<Action>
    ensures { result ≡ action_named word.now }
{
    if word.eq_ignore_ascii_case(b"GET") {
        Some(Action::Get)
    } else if word.eq_ignore_ascii_case(b"SET") {
        Some(Action::Set)
    } else if word.eq_ignore_ascii_case(b"COMMAND") {
        Some(Action::Command)
    } else {
        None
    }
}

// Whether all are digits.
fn all_digits(word: &[u8]) -> bool
    ensures { result ≡ list_all is_ascii_digit word.now }
{
    for c in word {
        if !is_digit(*c) {
            return false;
        }
    }
    true
}

fn is_digit(c: u8) -> bool
    ensures { result ≡ is_ascii_digit c }
{
    c.is_ascii_digit()
}

// Whether a word is one to twenty digits.
fn is_number(word: &[u8]) -> bool
    ensures { result ≡ is_number word.now }
{
    word.len() >= 1 && word.len() <= 20 && all_digits(word)
}

// One digit more.
fn with_digit(number: u128, digit: u8) -> u128
    requires small { number < 10 ^ 20 }
    requires digit { IsTrue (is_ascii_digit digit) }
    ensures { result ≡ 10 * number + (digit - 48) }
{
    10 * number + (digit - b'0') as u128
}

// The number of its digits, which is below 10^20.
fn number_of_digits(word: &[u8]) -> u128
    requires short { length word.now ≤ 20 }
    requires digits { IsTrue (list_all is_ascii_digit word.now) }
    ensures { result ≡ number_of_digits word.now }
{
    let mut number: u128 = 0;
    for digit in word {
        number = with_digit(number, *digit);
    }
    number
}

// The port that a word names: `*` for all, or a number from 1 on.
fn target_named(word: &[u8]) -> Option<u16>
    ensures { result ≡ target_named word.now }
{
    if word == b"*".as_slice() {
        return Some(ALL_PORTS);
    }
    if !is_number(word) {
        return None;
    }
    let number = number_of_digits(word);
    if number >= 1 && number <= 65535 {
        Some(number as u16)
    } else {
        None
    }
}

// The port that a word asks, where no other follows.
fn last_target(word: &[u8], rest: Option<&[u8]>) -> Option<u16>
    ensures { result ≡ target_asked (word.now ∷ words_behind (option_copied rest.entry)) }
{
    match rest {
        None => target_named(word),
        Some(_) => None,
    }
}

// The port that the words behind the name ask: all, where there are none.
fn target_asked(rest: Option<&[u8]>) -> Option<u16>
    ensures { result ≡ target_asked (words_behind (option_copied rest.entry)) }
{
    let Some(rest) = rest else {
        return Some(ALL_PORTS);
    };
    let (word, more) = first_word(rest);
    last_target(word, more)
}

// A request for an id, where there is a target.
fn request_for(action: Action, id: ManagementId, target: Option<u16>) -> Result<Request, AskError>
    ensures { result ≡ aimed action id target }
{
    match target {
        None => Err(AskError::Target),
        Some(target) => Ok(Request {
            action,
            id: number_of(id),
            target,
        }),
    }
}

// `GET` looks at the target, the others ask all ports.
fn asked_of(action: Action, id: ManagementId, rest: Option<&[u8]>) -> Result<Request, AskError>
    ensures { result ≡ asked_of action (words_behind (option_copied rest.entry)) id }
{
    match action {
        Action::Get => request_for(action, id, target_asked(rest)),
        Action::Set | Action::Response | Action::Command | Action::Acknowledge => {
            request_for(action, id, Some(ALL_PORTS))
        }
    }
}

fn named_asked(
    action: Action,
    id: Option<ManagementId>,
    rest: Option<&[u8]>,
) -> Result<Request, AskError>
    ensures { result ≡ named_asked action (words_behind (option_copied rest.entry)) id }
{
    match id {
        None => Err(AskError::Unknown),
        Some(id) => asked_of(action, id, rest),
    }
}

// What the words behind the action ask.
fn name_asked(action: Action, rest: Option<&[u8]>) -> Result<Request, AskError>
    ensures { result ≡ name_asked action (words_behind (option_copied rest.entry)) }
{
    let Some(rest) = rest else {
        return Err(AskError::Unknown);
    };
    let (name, rest) = first_word(rest);
    named_asked(action, named(name), rest)
}

fn action_asked(action: Option<Action>, rest: Option<&[u8]>) -> Result<Request, AskError>
    ensures { result ≡ action_asked action (words_behind (option_copied rest.entry)) }
{
    match action {
        None => Err(AskError::Action),
        Some(action) => name_asked(action, rest),
    }
}

/// What a text asks: `GET`, `SET` or `COMMAND`, the name of a management message, both in any case
/// of letters, and behind `GET` the port, `*` or 65535 for all ports, which nothing stands for too.
/// What follows the name behind `SET` and `COMMAND` is passed over. Words are parted by one space.
/// Does not allocate.
///
/// `Action` is answered where the first word is no action, else `Unknown` where the second is no
/// name, else `Target` where the third names no port from 1 to 65,535, or there is a fourth.
pub fn ask(text: &[u8]) -> Result<Request, AskError>
    ensures { result ≡ asked_by text.now }
{
    let (word, rest) = first_word(text);
    action_asked(action_named(word), rest)
}

/// The management message of a request, of a sequence (IEEE 1588-2019, 15.4.1): from port 1 of clock
/// 0 to all clocks, without data. Does not allocate.
pub fn request(alloc: Global, r: &Request, seq: u16) -> Managed
    ensures { result ≡ request_of r.now seq }
{
    Managed {
        sender: PortId {
            clock: ClockId { id: 0 },
            port: 1,
        },
        target: PortId {
            clock: ALL_CLOCKS,
            port: r.target,
        },
        seq,
        action: r.action,
        tlv: Tlv::Management {
            id: r.id,
            octets: Octets::new(alloc),
        },
    }
}

/// Appends the octets of a request, of a sequence and in a domain (15.4.1), or nothing where memory
/// runs out.
pub fn spell(
    alloc: Global,
    r: &Request,
    seq: u16,
    domain: u8,
    out: &mut Octets,
) -> Result<(), NoMemory>
    ensures ok { OnOk result (out.new ≡ out.old ++ request_octets domain seq r.now) }
    ensures err { OnErr result (out.new ≡ out.old) }
{
    write(alloc, &request(alloc, r, seq), domain, out)
}
