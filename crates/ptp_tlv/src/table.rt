//! The management messages that this clock knows: number, name and fields (IEEE 1588-2019,
//! 15.5.2.3 and 15.5.3), and how each field stands and is printed.

ghost use Rattle.std.specs.Prelude.{◌≡◌, ◌≤◌, IsTrue};
ghost use Rattle.std.specs.Str.{str_eq_ignore_ascii_case};
ghost use Rattle.ptp_management.specs.ManagementFields.{fits_form, id_number, id_name, id_fields, id_numbered, shape_of, width_of};
ghost use Rattle.ptp_management.specs.ManagementQueries.{id_named};

use ptp_management::{Field, Form, MANAGEMENT_IDS, ManagementId};

/// managementId.
pub fn number_of(id: ManagementId) -> u16
    ensures { result ≡ id_number id }
{
    match id {
        ManagementId::NullManagement => 0x0000,
        ManagementId::DefaultDataSet => 0x2000,
        ManagementId::CurrentDataSet => 0x2001,
        ManagementId::ParentDataSet => 0x2002,
        ManagementId::TimePropertiesDataSet => 0x2003,
        ManagementId::PortDataSet => 0x2004,
        ManagementId::Priority1 => 0x2005,
        ManagementId::Priority2 => 0x2006,
        ManagementId::Domain => 0x2007,
    }
}

/// Its name in queries and printed answers.
pub fn name_of(id: ManagementId) -> &'static str
    ensures { result.now ≡ id_name id }
{
    match id {
        ManagementId::NullManagement => "NULL_MANAGEMENT",
        ManagementId::DefaultDataSet => "DEFAULT_DATA_SET",
        ManagementId::CurrentDataSet => "CURRENT_DATA_SET",
        ManagementId::ParentDataSet => "PARENT_DATA_SET",
        ManagementId::TimePropertiesDataSet => "TIME_PROPERTIES_DATA_SET",
        ManagementId::PortDataSet => "PORT_DATA_SET",
        ManagementId::Priority1 => "PRIORITY1",
        ManagementId::Priority2 => "PRIORITY2",
        ManagementId::Domain => "DOMAIN",
    }
}

// The fields of each message, in the order of the octets.
const DEFAULT_FIELDS: [Field; 11] = [
    Field::TwoStepFlag,
    Field::Reserved,
    Field::NumberPorts,
    Field::Priority1,
    Field::ClockClass,
    Field::ClockAccuracy,
    Field::OffsetScaledLogVariance,
    Field::Priority2,
    Field::ClockIdentity,
    Field::DomainNumber,
    Field::Reserved,
];

const CURRENT_FIELDS: [Field; 3] = [
    Field::StepsRemoved,
    Field::OffsetFromMaster,
    Field::MeanPathDelay,
];

const PARENT_FIELDS: [Field; 11] = [
    Field::ParentPortIdentity,
    Field::ParentStats,
    Field::Reserved,
    Field::ObservedVariance,
    Field::ObservedPhaseChangeRate,
    Field::GrandmasterPriority1,
    Field::GrandmasterClass,
    Field::GrandmasterAccuracy,
    Field::GrandmasterVariance,
    Field::GrandmasterPriority2,
    Field::GrandmasterIdentity,
];

const TIME_FIELDS: [Field; 3] = [Field::CurrentUtcOffset, Field::TimeFlags, Field::TimeSource];

const PORT_FIELDS: [Field; 10] = [
    Field::PortIdentity,
    Field::PortState,
    Field::LogMinDelayReqInterval,
    Field::PeerMeanPathDelay,
    Field::LogAnnounceInterval,
    Field::AnnounceReceiptTimeout,
    Field::LogSyncInterval,
    Field::DelayMechanism,
    Field::LogMinPdelayReqInterval,
    Field::VersionNumber,
];

/// Its fields, in the order of the octets.
pub fn fields_of(id: ManagementId) -> &'static [Field]
    ensures { result.now ≡ id_fields id }
{
    match id {
        ManagementId::NullManagement => &[],
        ManagementId::DefaultDataSet => &DEFAULT_FIELDS,
        ManagementId::CurrentDataSet => &CURRENT_FIELDS,
        ManagementId::ParentDataSet => &PARENT_FIELDS,
        ManagementId::TimePropertiesDataSet => &TIME_FIELDS,
        ManagementId::PortDataSet => &PORT_FIELDS,
        ManagementId::Priority1 => &[Field::Priority1, Field::Reserved],
        ManagementId::Priority2 => &[Field::Priority2, Field::Reserved],
        ManagementId::Domain => &[Field::DomainNumber, Field::Reserved],
    }
}

/// How a field stands and is printed: its name, its width in octets, from 1 to 10, and its form.
#[derive(Clone, Copy)]
pub struct Shape {
    /// The name that is printed.
    pub name: &'static str,
    /// How many octets it has, 1 to 10.
    pub width: usize,
    /// How its value is printed.
    pub form: Form,
}

/// The shape with this name, width and form.
fn shape_with(name: &'static str, width: usize, form: Form) -> Shape
    requires fits { IsTrue (fits_form form width) }
    requires some { 1 ≤ width }
    requires most { width ≤ 10 }
    ensures name { result.name.now ≡ name.now }
    ensures width { result.width ≡ width }
    ensures form { result.form ≡ form }
{
    Shape { name, width, form }
}

/// How a field stands and is printed.
pub fn shape_of(field: Field) -> Shape
    ensures name { result.name.now ≡ (shape_of field).name }
    ensures width { result.width ≡ (shape_of field).width }
    ensures form { result.form ≡ (shape_of field).form }

    // Each is wide enough for its form, and none is wider than ten octets.
    ensures fits { IsTrue (fits_form result.form result.width) }
    ensures some { 1 ≤ result.width }
    ensures most { result.width ≤ 10 }
{
    match field {
        Field::Reserved => shape_with("", 1, Form::Silent),
        Field::TwoStepFlag => shape_with("twoStepFlag", 1, Form::Flag),
        Field::NumberPorts => shape_with("numberPorts", 2, Form::Decimal),
        Field::Priority1 => shape_with("priority1", 1, Form::Decimal),
        Field::ClockClass => shape_with("clockClass", 1, Form::Decimal),
        Field::ClockAccuracy => shape_with("clockAccuracy", 1, Form::Hex),
        Field::OffsetScaledLogVariance => shape_with("offsetScaledLogVariance", 2, Form::Hex),
        Field::Priority2 => shape_with("priority2", 1, Form::Decimal),
        Field::ClockIdentity => shape_with("clockIdentity", 8, Form::Clock),
        Field::DomainNumber => shape_with("domainNumber", 1, Form::Decimal),
        Field::StepsRemoved => shape_with("stepsRemoved", 2, Form::Decimal),
        Field::OffsetFromMaster => shape_with("offsetFromMaster", 8, Form::Signed),
        Field::MeanPathDelay => shape_with("meanPathDelay", 8, Form::Signed),
        Field::ParentPortIdentity => shape_with("parentPortIdentity", 10, Form::Port),
        Field::ParentStats => shape_with("", 1, Form::Silent),
        Field::ObservedVariance => shape_with("", 2, Form::Silent),
        Field::ObservedPhaseChangeRate => shape_with("", 4, Form::Silent),
        Field::GrandmasterPriority1 => shape_with("grandmasterPriority1", 1, Form::Decimal),
        Field::GrandmasterClass => shape_with("gm.ClockClass", 1, Form::Decimal),
        Field::GrandmasterAccuracy => shape_with("gm.ClockAccuracy", 1, Form::Hex),
        Field::GrandmasterVariance => shape_with("gm.OffsetScaledLogVariance", 2, Form::Hex),
        Field::GrandmasterPriority2 => shape_with("grandmasterPriority2", 1, Form::Decimal),
        Field::GrandmasterIdentity => shape_with("grandmasterIdentity", 8, Form::Clock),
        Field::CurrentUtcOffset => shape_with("currentUtcOffset", 2, Form::Signed),
        Field::TimeFlags => shape_with("timeFlags", 1, Form::Decimal),
        Field::TimeSource => shape_with("timeSource", 1, Form::Hex),
        Field::PortIdentity => shape_with("portIdentity", 10, Form::Port),
        Field::PortState => shape_with("portState", 1, Form::State),
        Field::LogMinDelayReqInterval => shape_with("logMinDelayReqInterval", 1, Form::Signed),
        Field::PeerMeanPathDelay => shape_with("", 8, Form::Silent),
        Field::LogAnnounceInterval => shape_with("logAnnounceInterval", 1, Form::Signed),
        Field::AnnounceReceiptTimeout => shape_with("announceReceiptTimeout", 1, Form::Decimal),
        Field::LogSyncInterval => shape_with("logSyncInterval", 1, Form::Signed),
        Field::DelayMechanism => shape_with("", 1, Form::Silent),
        Field::LogMinPdelayReqInterval => shape_with("", 1, Form::Silent),
        Field::VersionNumber => shape_with("", 1, Form::Silent),
    }
}

/// How many octets the data of a message have: at most 32.
pub fn width_of(id: ManagementId) -> usize
    ensures width { result ≡ width_of (id_fields id) }
    ensures short { result ≤ 32 }
{
    match id {
        ManagementId::NullManagement => 0,
        ManagementId::DefaultDataSet => 20,
        ManagementId::CurrentDataSet => 18,
        ManagementId::ParentDataSet => 32,
        ManagementId::TimePropertiesDataSet => 4,
        ManagementId::PortDataSet => 26,
        ManagementId::Priority1 | ManagementId::Priority2 | ManagementId::Domain => 2,
    }
}

/// The message of a number, if this clock knows one.
#[tactic(auto, unfolding(ptp_management::specs::ManagementFields::id_numbered))]
pub fn numbered(number: u16) -> Option<ManagementId>
    ensures { result ≡ id_numbered number }
{
    MANAGEMENT_IDS
        .iter()
        .copied()
        .find(|id| number_of(*id) == number)
}

// Whether words are the same in any case of letters.
fn same_word(a: &[u8], b: &[u8]) -> bool
    ensures { result ≡ str_eq_ignore_ascii_case a.now b.now }
{
    a.eq_ignore_ascii_case(b)
}

/// The message of a name, in any case of letters, if there is one.
#[tactic(auto, unfolding(ptp_management::specs::ManagementQueries::id_named))]
pub fn named(word: &[u8]) -> Option<ManagementId>
    ensures { result ≡ id_named word.now }
{
    MANAGEMENT_IDS
        .iter()
        .copied()
        .find(|id| same_word(word, name_of(*id).as_bytes()))
}
