//! The lines that a session writes of its own: the clock, `R n`, logins and logouts, and why a program stopped or isn't loaded.
ghost use Rattle.std.specs.Prelude.{◌≡◌, ◌<◌, ◌≤◌, ◌^◌, length, true};
ghost use Rattle.std.specs.List.{list_all};
ghost use Rattle.bcd48.specs.Characters.{is_character};
ghost use Rattle.user_model.specs.Texts.{digit, time_text, ready_text, logged_in_text, logged_out_text, stop_text, doubly_text, undefined_text};
ghost use Rattle.user_model.specs.Commands.{load_text, link_text};

use ctss_types::{LineText, name_text};
use itoa::Buffer;
use link_model::LinkRefusal;
use program_model::LoadFault;
use word36::Word;

/// The last digit of a number.
fn digit(n: u64) -> u8
    ensures { result ≡ digit n }
{
    b'0' + (n % 10) as u8
}

/// `W hhmm.t` for a tick.
#[tactic(auto, using(crate::proofs::Texts::time_is_line), unfolding(user_model::specs::Texts::time_text))]
pub fn time_text(t: u64) -> LineText
    ensures { result ≡ time_text t }
{
    LineText::of(&[
        b'W',
        b' ',
        digit(t / 600_000 % 24 / 10),
        digit(t / 600_000 % 24),
        digit(t / 10_000 % 60 / 10),
        digit(t / 10_000 % 60),
        b'.',
        digit(t / 1000),
    ])
}

/// `R n` for a number of own steps.
#[tactic(auto, using(cmd_program::proofs::Decimals::decimal_is), unfolding(user_model::specs::Texts::ready_text))]
pub fn ready_text(n: u64) -> LineText
    ensures { result ≡ ready_text n }
{
    let mut buffer = Buffer::new();
    LineText::joined(b"R ", buffer.format(n).as_bytes())
}

/// What a login says.
#[tactic(auto, unfolding(user_model::specs::Texts::logged_in_text))]
pub fn logged_in_text(name: Word) -> LineText
    ensures { result ≡ logged_in_text name }
{
    let name = name_text(name);
    LineText::joined(name.as_slice(), b" LOGGED IN")
}

/// What a logout says.
#[tactic(auto, unfolding(user_model::specs::Texts::logged_out_text))]
pub fn logged_out_text(name: Word) -> LineText
    ensures { result ≡ logged_out_text name }
{
    let name = name_text(name);
    LineText::joined(name.as_slice(), b" LOGGED OUT")
}

/// Why a program stopped, and where, in five octal digits.
#[tactic(auto, using(crate::proofs::Texts::place_is_line), unfolding(user_model::specs::Texts::stop_text, word36::specs::Octal::octal_digits))]
pub fn stop_text(why: &[u8], place: u16) -> LineText
    requires short { length why.now ≤ 70 }
    requires characters { list_all is_character why.now ≡ true }
    ensures { result ≡ stop_text why.now place }
{
    let place = [
        b' ',
        b'A',
        b'T',
        b' ',
        b'0' + (place / 0o10000 % 8) as u8,
        b'0' + (place / 0o1000 % 8) as u8,
        b'0' + (place / 0o100 % 8) as u8,
        b'0' + (place / 0o10 % 8) as u8,
        b'0' + (place % 8) as u8,
    ];
    LineText::joined(why, &place)
}

/// Why a program isn't loaded.
pub fn load_text(fault: LoadFault) -> LineText
    ensures { result ≡ load_text fault }
{
    match fault {
        LoadFault::NoFile => LineText::of(b"FILE NOT FOUND"),
        LoadFault::BadDeck => LineText::of(b"BAD DECK"),
        LoadFault::TooLarge => LineText::of(b"TOO LARGE"),
    }
}

/// A name that two of the linked modules enter.
#[tactic(auto, unfolding(user_model::specs::Texts::doubly_text))]
fn doubly_text(name: Word) -> LineText
    ensures { result ≡ doubly_text name }
{
    let name = name_text(name);
    if name.is_empty() {
        return LineText::of(b"DOUBLY");
    }
    LineText::joined(b"DOUBLY ", name.as_slice())
}

/// A name that none of the linked modules enters.
#[tactic(auto, unfolding(user_model::specs::Texts::undefined_text))]
fn undefined_text(name: Word) -> LineText
    ensures { result ≡ undefined_text name }
{
    let name = name_text(name);
    if name.is_empty() {
        return LineText::of(b"UNDEFINED");
    }
    LineText::joined(b"UNDEFINED ", name.as_slice())
}

/// Why modules aren't linked.
pub fn link_text(refusal: LinkRefusal) -> LineText
    ensures { result ≡ link_text refusal }
{
    match refusal {
        LinkRefusal::NoFile => LineText::of(b"FILE NOT FOUND"),
        LinkRefusal::BadModule => LineText::of(b"BAD MODULE"),
        LinkRefusal::TooLarge => LineText::of(b"TOO LARGE"),
        LinkRefusal::Doubly(name) => doubly_text(name),
        LinkRefusal::Undefined(name) => undefined_text(name),
    }
}
