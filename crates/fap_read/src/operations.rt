ghost use Rattle.std.specs.Prelude.{◌≡◌, ◌≤◌, ◌-◌, ◌++◌, length, drop, replicate};
ghost use Rattle.fap_model.specs.Cards.{operation_of};
ghost use Rattle.fap_model.specs.Statements.{operation_named, machine_named, machine_form, form_of};

use crate::columns::operation_text;
use fap_model::{Form, Operation};
use opcode_table::{Class, Kind, class, kind, op_named};

/// Puts a text at the front.
pub fn put_front(line: &[u8], text: &mut [u8])
    requires { length line.now ≤ length text.old }
    ensures { text.new ≡ line.now ++ drop (length line.now) text.old }
{
    text[..line.len()].copy_from_slice(line);
}

/// A name with blanks behind it.
#[tactic(auto, using(crate::proofs::Blanks::blanks_six))]
fn padded_name(text: &[u8]) -> [u8; 6]
    requires { length text.now ≤ 6 }
    ensures { result ≡ text.now ++ replicate (6 - length text.now) 32 }
{
    let mut name = [b' '; 6];
    put_front(text, &mut name);
    name
}

/// The instruction of a name.
fn machine_named(text: &[u8]) -> Option<Operation>
    ensures { result ≡ machine_named text.now }
{
    if text.len() <= 6 {
        match op_named(&padded_name(text)) {
            Some(op) => Some(Operation::Machine(op)),
            None => None,
        }
    } else {
        None
    }
}

/// The operation of a name.
fn operation_named(text: &[u8]) -> Option<Operation>
    ensures { result ≡ operation_named text.now }
{
    if text == b"PZE".as_slice() {
        Some(Operation::Pze)
    } else if text == b"ORG".as_slice() {
        Some(Operation::Org)
    } else if text == b"BSS".as_slice() {
        Some(Operation::Bss)
    } else if text == b"EQU".as_slice() {
        Some(Operation::Equ)
    } else if text == b"DEC".as_slice() {
        Some(Operation::Dec)
    } else if text == b"OCT".as_slice() {
        Some(Operation::Oct)
    } else if text == b"BCI".as_slice() {
        Some(Operation::Bci)
    } else if text == b"END".as_slice() {
        Some(Operation::End)
    } else {
        machine_named(text)
    }
}

/// The operation of a card, if there is one of that name.
pub fn operation(text: &[u8]) -> Option<Operation>
    ensures { result ≡ operation_named (operation_of text.now) }
{
    operation_named(operation_text(text))
}

/// The form of an instruction's field.
fn machine_form(class: Class, kind: Kind) -> Form
    ensures { result ≡ machine_form class kind }
{
    match class {
        Class::Addressed | Class::Direct => Form::Parts(2),
        Class::Tagged => match kind {
            Kind::Logic => Form::OctalHalf,
            _ => Form::Parts(2),
        },
        Class::Prefixed => Form::Parts(3),
        Class::Group => Form::Empty,
    }
}

/// The form of an operation's field.
pub fn form(op: Operation) -> Form
    ensures { result ≡ form_of op }
{
    match op {
        Operation::Machine(op) => machine_form(class(op), kind(op)),
        Operation::Pze => Form::Parts(3),
        Operation::Org | Operation::Bss | Operation::Equ | Operation::End => Form::OneValue,
        Operation::Dec => Form::Decimals,
        Operation::Oct => Form::Octals,
        Operation::Bci => Form::Characters,
    }
}
