//! The printed lines of an answer.

ghost use Rattle.std.specs.Prelude.{◌≡◌, ◌≤◌, ◌++◌, ◌∷◌, [], length, drop, IfOk, OnOk, OnErr, IsTrue};
ghost use Rattle.ptp_management.specs.ManagementFields.{fields_lines, id_numbered, shape_lines, shape_of, width_of};
ghost use Rattle.ptp_management.specs.declared.managed.Tlv.TheVariants.{Management, Error};
ghost use Rattle.ptp_management.specs.ManagementQueries.{action_text, can_show, is_known, lines_text, name_text, origin_text, printed_lines, shows, title_line, tlv_lines, values_lines};
ghost use Rattle.ptp_tlv.specs.LentMessages.{managed_of, tlv_of};

use crate::forms::{add_decimal, add_hex, add_port, add_value};
use crate::showing::lend_itself;
use ptp_base::{NoMemory, Octets, two};
use ptp_management::{Action, Field, Form, ManagementId};
use ptp_tlv::{Lent, LentTlv, fields_of, name_of, numbered, shape_of};
use std::alloc::Global;

fn action_name(action: Action) -> &'static str
    ensures { result.now ≡ action_text action }
{
    match action {
        Action::Get => "GET",
        Action::Set => "SET",
        Action::Response => "RESPONSE",
        Action::Command => "COMMAND",
        Action::Acknowledge => "ACKNOWLEDGE",
    }
}

// Appends who says it, and of which request.
fn add_origin(alloc: Global, m: &Lent, out: &mut Octets) -> Result<(), NoMemory>
    ensures { OnOk result (out.new ≡ out.old ++ origin_text (managed_of m.now)) }
{
    add_port(alloc, &m.sender, out)?;
    out.append(b" seq ")?;
    add_decimal(alloc, m.seq as u64, out)?;
    out.append(b" ")?;
    out.append(action_name(m.action).as_bytes())
}

// Appends the name of an id, or its four hex digits.
fn add_name(alloc: Global, id: u16, out: &mut Octets) -> Result<(), NoMemory>
    ensures { OnOk result (out.new ≡ out.old ++ name_text id (id_numbered id)) }
{
    match numbered(id) {
        Some(known) => out.append(name_of(known).as_bytes()),
        None => {
            out.append(b"0x")?;
            add_hex(alloc, &two(id), out)
        }
    }
}

// Appends the line of a field, if it is printed, from the octets that begin with the field's.
fn add_field(alloc: Global, field: Field, octets: &[u8], out: &mut Octets) -> Result<(), NoMemory>
    requires { (shape_of field).width ≤ length octets.now }
    ensures { OnOk result
        (out.new ≡ out.old ++ lines_text (shape_lines (shape_of field) octets.now)) }
{
    let shape = shape_of(field);
    if let Form::Silent = shape.form {
        return Ok(());
    }
    out.append(shape.name.as_bytes())?;
    out.append(b" ")?;
    add_value(alloc, shape.form, &octets[..shape.width], out)?;
    out.append(b"\n")
}

// What stands behind a field.
fn octets_behind(octets: &[u8], width: usize) -> &[u8]
    requires { width ≤ length octets.now }
    ensures { result.now ≡ drop width octets.now }
{
    &octets[width..]
}

// Appends the lines of fields, from their octets.
fn add_fields(
    alloc: Global,
    fields: &[Field],
    octets: &[u8],
    out: &mut Octets,
) -> Result<(), NoMemory>
    requires { length octets.now ≡ width_of fields.now }
    ensures { OnOk result (out.new ≡ out.old ++ lines_text (fields_lines fields.now octets.now)) }
{
    let mut rest = octets;
    for field in fields {
        add_field(alloc, *field, rest, out)?;
        rest = octets_behind(rest, shape_of(*field).width);
    }
    Ok(())
}

// Appends the line of a response.
fn add_title(alloc: Global, m: &Lent, id: u16, out: &mut Octets) -> Result<(), NoMemory>
    ensures { OnOk result
        (out.new ≡ out.old ++ lines_text (title_line (managed_of m.now) id ∷ [])) }
{
    add_origin(alloc, m, out)?;
    out.append(b" MANAGEMENT ")?;
    add_name(alloc, id, out)?;
    out.append(b"\n")
}

// Appends the line of an error.
fn add_error(alloc: Global, m: &Lent, error: u16, id: u16, out: &mut Octets) -> Result<(), NoMemory>
    ensures { OnOk result
        (out.new ≡ out.old ++ lines_text (tlv_lines (managed_of m.now) (Error error id))) }
{
    add_origin(alloc, m, out)?;
    out.append(b" ERROR ")?;
    add_decimal(alloc, error as u64, out)?;
    out.append(b" ")?;
    add_name(alloc, id, out)?;
    out.append(b"\n")
}

// Appends the lines of the values of a known message.
fn add_known(
    alloc: Global,
    known: Option<ManagementId>,
    octets: &[u8],
    out: &mut Octets,
) -> Result<(), NoMemory>
    requires { IsTrue (is_known known octets.now) }
    ensures { OnOk result (out.new ≡ out.old ++ lines_text (values_lines known octets.now)) }
{
    match known {
        None => Ok(()),
        Some(id) => add_fields(alloc, fields_of(id), octets, out),
    }
}

// Appends the lines of a response.
fn add_values(
    alloc: Global,
    m: &Lent,
    id: u16,
    octets: &[u8],
    out: &mut Octets,
) -> Result<(), NoMemory>
    requires { IsTrue (is_known (id_numbered id) octets.now) }
    ensures { OnOk result
        (out.new
        ≡ out.old ++ lines_text (tlv_lines (managed_of m.now) (Management id octets.now))) }
{
    add_title(alloc, m, id, out)?;
    add_known(alloc, numbered(id), octets, out)
}

// The lines of a message.
fn message_text(alloc: Global, m: &Lent) -> Result<Octets, NoMemory>
    requires { IsTrue (can_show m.now.action (tlv_of m.now.tlv)) }
    ensures { IfOk result
        (λ text. text ≡ lines_text (tlv_lines (managed_of m.now) (tlv_of m.now.tlv))) }
{
    let mut text = Octets::new(alloc);
    match m.tlv {
        LentTlv::Management { id, octets } => add_values(alloc, m, id, octets, &mut text)?,
        LentTlv::Error { error, id } => add_error(alloc, m, error, id, &mut text)?,
    }
    Ok(text)
}

// The lines of octets.
#[tactic(auto, unfolding(ptp_management::specs::ManagementQueries::shows, ptp_management::specs::ManagementQueries::printed_lines))]
fn text_of(alloc: Global, octets: &[u8]) -> Result<Octets, NoMemory>
    requires { IsTrue (shows octets.now) }
    ensures { IfOk result (λ text. text ≡ lines_text (printed_lines octets.now)) }
{
    match lend_itself(octets) {
        None => Ok(Octets::new(alloc)),
        Some(m) => message_text(alloc, &m),
    }
}

/// Appends the printed lines of octets that `shows` is true of, each with its newline: who answers
/// which request with what, and for a response a line `NAME VALUE` for each field that is printed;
/// or nothing where memory runs out.
pub fn print(alloc: Global, octets: &[u8], out: &mut Octets) -> Result<(), NoMemory>
    requires { IsTrue (shows octets.now) }
    ensures ok { OnOk result (out.new ≡ out.old ++ lines_text (printed_lines octets.now)) }
    ensures err { OnErr result (out.new ≡ out.old) }
{
    let text = text_of(alloc, octets)?;
    out.append(text.items())
}
