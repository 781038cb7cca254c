//! What the data sets answer to a request.

ghost use Rattle.std.specs.Prelude.{◌≡◌, ◌≤◌, ◌++◌, ◌∷◌, [], ◌==◌, ◌||◌, ℕ, length, map, IfOk, OnOk, OnErr, IsTrue, false};
ghost use Rattle.std.specs.List.{list_all};
ghost use Rattle.ptp_management.specs.declared.managed.Tlv.TheVariants.{Management, Error};
ghost use Rattle.ptp_management.specs.ManagementFields.{fields_octets, id_fields};
ghost use Rattle.ptp_management.specs.ManagementMessages.{managed_octets, IsShort};
ghost use Rattle.ptp_management.specs.ManagementQueries.{all_ports, answer_to, answers_octets, answers_to, can_be_set, can_show, clock_values, error_action, error_to, has_state, is_for, is_of_ports, is_request, known_answers, port_values, response_to, responses, shows};
ghost use Rattle.pmc_query.specs.AnsweredSets.{answering, answering_port, ports_answers};

use crate::asking::{ALL_CLOCKS, ALL_PORTS};
use crate::values::{clock_values, fields_octets, port_values};
use data_sets::{DataSets, PortSet};
use ptp_base::{NoMemory, Octets, PortId};
use ptp_management::{Action, Answers, Managed, ManagementId, Tlv};
use ptp_tlv::{fields_of, number_of, numbered, width_of, write};
use std::alloc::Global;
use std::mem;

// managementErrorId (IEEE 1588-2019, 15.5.4.3).
const NO_SUCH_ID: u16 = 2;

const WRONG_LENGTH: u16 = 3;

const NOT_SETABLE: u16 = 5;

const NOT_SUPPORTED: u16 = 6;

// What asks for an answer.
fn is_request(action: Action) -> bool
    ensures { result ≡ is_request action }
{
    match action {
        Action::Get | Action::Set | Action::Command => true,
        Action::Response | Action::Acknowledge => false,
    }
}

// Whether the request is for all clocks, or for this one.
fn is_for(d: &DataSets, r: &Managed) -> bool
    ensures { result ≡ is_for (answering d.now) r.now }
{
    r.target.clock.id == ALL_CLOCKS.id || r.target.clock.id == d.own.sender.clock.id
}

// An error acknowledges a command, and is else a response.
fn error_action(action: Action) -> Action
    ensures action { result ≡ error_action action }
    ensures shown { (error id : ℕ) → IsTrue (can_show result (Error error id)) }
{
    match action {
        Action::Command => Action::Acknowledge,
        Action::Get | Action::Set | Action::Response | Action::Acknowledge => Action::Response,
    }
}

// Whether a clock of the standard lets it be set.
fn can_be_set(id: ManagementId) -> bool
    ensures { result ≡ can_be_set id }
{
    match id {
        ManagementId::Priority1 | ManagementId::Priority2 | ManagementId::Domain => true,
        ManagementId::NullManagement
        | ManagementId::DefaultDataSet
        | ManagementId::CurrentDataSet
        | ManagementId::ParentDataSet
        | ManagementId::TimePropertiesDataSet
        | ManagementId::PortDataSet => false,
    }
}

// Whether the values are a port's own.
fn is_of_ports(id: ManagementId) -> bool
    ensures { result ≡ is_of_ports id }
{
    match id {
        ManagementId::PortDataSet => true,
        ManagementId::NullManagement
        | ManagementId::DefaultDataSet
        | ManagementId::CurrentDataSet
        | ManagementId::ParentDataSet
        | ManagementId::TimePropertiesDataSet
        | ManagementId::Priority1
        | ManagementId::Priority2
        | ManagementId::Domain => false,
    }
}

// An answer goes back to the sender, with the request's sequence.
fn answer_to(d: &DataSets, r: &Managed, port: u16, action: Action, tlv: Tlv) -> Managed
    ensures { result ≡ answer_to (answering d.now) r.now port action tlv }
{
    Managed {
        sender: PortId {
            clock: d.own.sender.clock,
            port,
        },
        target: r.sender,
        seq: r.seq,
        action,
        tlv,
    }
}

// The octets of an answer.
fn octets_of(alloc: Global, domain: u8, m: &Managed) -> Result<Octets, NoMemory>
    requires short { IsShort m.now.tlv }
    requires shown { IsTrue (can_show m.now.action m.now.tlv) }
    ensures octets { IfOk result (λ octets. octets ≡ managed_octets domain m.now) }
    ensures shown { IfOk result (λ octets. IsTrue (shows octets)) }
{
    let mut octets = Octets::new(alloc);
    write(alloc, m, domain, &mut octets)?;
    Ok(octets)
}

// The one answer that is an error.
fn error_to(
    alloc: Global,
    d: &DataSets,
    r: &Managed,
    id: u16,
    error: u16,
) -> Result<Answers, NoMemory>
    ensures made { IfOk result
        (λ made.
        made
        ≡ map (managed_octets d.now.domain) (error_to (answering d.now) r.now id error)) }
    ensures shown { IfOk result (λ made. IsTrue (list_all shows made)) }
{
    let m = answer_to(d, r, 0, error_action(r.action), Tlv::Error { error, id });
    let mut made = Answers::new(alloc);
    made.push(octets_of(alloc, d.domain, &m)?)?;
    Ok(made)
}

// The octets of a response with values.
fn response_to(
    alloc: Global,
    d: &DataSets,
    r: &Managed,
    port: u16,
    id: ManagementId,
    values: &[u128],
) -> Result<Octets, NoMemory>
    requires each { length values.now ≡ length (id_fields id) }
    requires state { IsTrue (has_state id (fields_octets (id_fields id) values.now)) }
    ensures octets { IfOk result
        (λ octets.
        octets
        ≡ managed_octets d.now.domain
        (response_to (answering d.now) r.now port id values.now)) }
    ensures shown { IfOk result (λ octets. IsTrue (shows octets)) }
{
    let tlv = Tlv::Management {
        id: number_of(id),
        octets: fields_octets(alloc, fields_of(id), values)?,
    };
    let m = answer_to(d, r, port, Action::Response, tlv);
    octets_of(alloc, d.domain, &m)
}

// The one response of the clock itself.
fn clock_response(
    alloc: Global,
    d: &DataSets,
    r: &Managed,
    id: ManagementId,
) -> Result<Answers, NoMemory>
    requires clock { is_of_ports id ≡ false }
    ensures made { IfOk result
        (λ made. made ≡ map (managed_octets d.now.domain) (responses (answering d.now) r.now id)) }
    ensures shown { IfOk result (λ made. IsTrue (list_all shows made)) }
{
    let values = clock_values(alloc, d, id)?;
    let mut made = Answers::new(alloc);
    made.push(response_to(alloc, d, r, 0, id, values.as_slice())?)?;
    Ok(made)
}

// The response of a port.
fn port_response(
    alloc: Global,
    d: &DataSets,
    r: &Managed,
    port: &PortSet,
) -> Result<Octets, NoMemory>
    ensures octets { IfOk result
        (λ octets.
        octets
        ≡ managed_octets d.now.domain
        (response_to (answering d.now) r.now port.now.id.port
        ManagementId.PortDataSet (port_values (answering_port port.now)))) }
    ensures shown { IfOk result (λ octets. IsTrue (shows octets)) }
{
    let values = port_values(alloc, port)?;
    response_to(
        alloc,
        d,
        r,
        port.id.port,
        ManagementId::PortDataSet,
        values.as_slice(),
    )
}

// Whether a request asks a port.
fn asks(r: &Managed, port: &PortSet) -> bool
    ensures { result
        ≡ ((r.now.target.port == all_ports) || (r.now.target.port == port.now.id.port)) }
{
    r.target.port == ALL_PORTS || r.target.port == port.id.port
}

// Adds the response of a port, where it is asked.
fn add_response(
    alloc: Global,
    d: &DataSets,
    r: &Managed,
    port: &PortSet,
    made: &mut Answers,
) -> Result<(), NoMemory>
    requires { IsTrue (list_all shows made.old) }
    ensures made { OnOk result
        (made.new ≡ made.old ++ ports_answers (answering d.now) r.now (port.now ∷ [])) }
    ensures shown { OnOk result (IsTrue (list_all shows made.new)) }
{
    if !asks(r, port) {
        return Ok(());
    }
    made.push(port_response(alloc, d, r, port)?)
}

// The responses of the ports that are asked, rising.
fn port_responses(alloc: Global, d: &DataSets, r: &Managed) -> Result<Answers, NoMemory>
    ensures made { IfOk result (λ made. made ≡ ports_answers (answering d.now) r.now d.now.ports) }
    ensures shown { IfOk result (λ made. IsTrue (list_all shows made)) }
{
    let mut made = Answers::new(alloc);
    let ports = d.ports.items();
    for port in ports {
        add_response(alloc, d, r, port, &mut made)?;
    }
    Ok(made)
}

// The answers to a request for a known message, with so many octets behind the id.
fn known_answers(
    alloc: Global,
    d: &DataSets,
    r: &Managed,
    id: ManagementId,
    long: usize,
) -> Result<Answers, NoMemory>
    ensures made { IfOk result
        (λ made.
        made
        ≡ map (managed_octets d.now.domain)
        (known_answers (answering d.now) r.now id long r.now.action)) }
    ensures shown { IfOk result (λ made. IsTrue (list_all shows made)) }
{
    match r.action {
        Action::Command => error_to(alloc, d, r, number_of(id), NOT_SUPPORTED),
        Action::Set if can_be_set(id) => error_to(alloc, d, r, number_of(id), NOT_SUPPORTED),
        Action::Set => error_to(alloc, d, r, number_of(id), NOT_SETABLE),
        Action::Get if long != 0 && long != width_of(id) => {
            error_to(alloc, d, r, number_of(id), WRONG_LENGTH)
        }
        Action::Get if is_of_ports(id) => port_responses(alloc, d, r),
        Action::Get => clock_response(alloc, d, r, id),
        Action::Response | Action::Acknowledge => Ok(Answers::new(alloc)),
    }
}

// The answers to a management message.
#[tactic(auto, unfolding(ptp_management::specs::ManagementQueries::answers_to))]
fn answers_to(alloc: Global, d: &DataSets, r: &Managed) -> Result<Answers, NoMemory>
    ensures made { IfOk result (λ made. made ≡ answers_octets (answering d.now) r.now) }
    ensures shown { IfOk result (λ made. IsTrue (list_all shows made)) }
{
    if !is_request(r.action) || !is_for(d, r) {
        return Ok(Answers::new(alloc));
    }
    match &r.tlv {
        Tlv::Error { .. } => Ok(Answers::new(alloc)),
        Tlv::Management { id, octets } => match numbered(*id) {
            None => error_to(alloc, d, r, *id, NO_SUCH_ID),
            Some(known) => known_answers(alloc, d, r, known, octets.items().len()),
        },
    }
}

// Appends all, or nothing where memory runs out.
fn append_all(alloc: Global, made: Answers, out: &mut Answers) -> Result<(), NoMemory>
    ensures ok { OnOk result (out.new ≡ out.old ++ made) }
    ensures err { OnErr result (out.new ≡ out.old) }
{
    let mut all = mem::replace(out, Answers::new(alloc)).into_vec();
    let mut made = made.into_vec();
    let appended = all.append(&mut made);
    *out = Answers::from_vec(all);
    appended?;
    Ok(())
}

/// Appends the answers of a clock's data sets to a management message (IEEE 1588-2019, 15.5), each as
/// its octets; or nothing where memory runs out. `d` has at most 65,535 ports.
///
/// No answer: an error or an answer, and what is for another clock. One error: 2 for an unknown id, 6
/// for a COMMAND and for a SET of what could be set, 5 for any other SET, 3 for a GET with another
/// number of octets than none or the answer's. Else one response, for PORT_DATA_SET one of each port
/// that the target names.
pub fn answer(
    alloc: Global,
    d: &DataSets,
    request: &Managed,
    out: &mut Answers,
) -> Result<(), NoMemory>
    requires { length d.now.ports ≤ 65535 }
    ensures ok { OnOk result (out.new ≡ out.old ++ answers_octets (answering d.now) request.now) }
    ensures err { OnErr result (out.new ≡ out.old) }

    // Each answer can be printed.
    ensures shown { OnOk result
        (IsTrue (list_all shows (answers_octets (answering d.now) request.now))) }
{
    let made = answers_to(alloc, d, request)?;
    append_all(alloc, made, out)
}
