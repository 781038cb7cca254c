ghost use Rattle.std.specs.Prelude.{◌≡◌, ℕ, List, [], ◌++◌, OnOk, IfOk, IsTrue};
ghost use Rattle.std.specs.Fmt.{AppendsText};
ghost use Rattle.hex.specs.Hex.{encode_lower};
ghost use Rattle.ptp_profile.specs.Port.PrintedNames.{port_text};
ghost use Rattle.ptp_management.specs.ManagementQueries.{lines_text, printed_lines, shows};

use crate::hex_digits::append_hex;
use pmc_query::{add_port, print};
use ptp_base::{NoMemory, Octets, PortId};
use std::alloc::Global;
use std::fmt;
use std::fmt::Write;
use std::marker::Model;

/// A text in the making, which contracts see as its octets so far. Where an addition finds no
/// memory, a part of what was to be added may stand at the end.
#[derive(Drop)]
pub struct Writer {
    alloc: Global,
    text: Octets,
}

impl Model for Writer {
    ghost Value = { List ℕ };

    ghost view = { λ w. w.text };
}

impl Writer {
    /// The empty text.
    pub fn new(alloc: Global) -> Writer
        ensures { result ≡ [] }
    {
        Writer {
            alloc,
            text: Octets::new(alloc),
        }
    }

    /// The whole text. Does not allocate.
    pub fn into_octets(self) -> Octets
        ensures { result ≡ self }
    {
        let Writer { text, .. } = self;
        text
    }

    /// Adds octets as they are.
    pub fn octets(&mut self, octets: &[u8]) -> Result<(), NoMemory>
        ensures { OnOk result (self.new ≡ self.old ++ octets.now) }
    {
        self.text.append(octets)
    }

    /// Adds two lower-case hex digits for each octet.
    pub fn hex(&mut self, octets: &[u8]) -> Result<(), NoMemory>
        ensures { OnOk result (self.new ≡ self.old ++ encode_lower octets.now) }
    {
        append_hex(octets, &mut self.text)
    }

    /// Adds the identity of a port: that of its clock, and its number.
    pub fn port(&mut self, id: &PortId) -> Result<(), NoMemory>
        ensures { OnOk result (self.new ≡ self.old ++ port_text id.now) }
    {
        add_port(self.alloc, id, &mut self.text)
    }

    /// The lines that print an answer which can be printed, each with its newline.
    pub fn printed(&self, answer: &[u8]) -> Result<Octets, NoMemory>
        requires { IsTrue (shows answer.now) }
        ensures { IfOk result (λ text. text ≡ lines_text (printed_lines answer.now)) }
    {
        let mut text = Octets::new(self.alloc);
        print(self.alloc, answer, &mut text)?;
        Ok(text)
    }

    /// Adds a format: what `write!` calls.
    pub fn write_fmt<D: fmt::Display + Drop>(&mut self, format: D) -> Result<(), NoMemory>
        ensures { OnOk result (AppendsText self.old self.new (D.output format)) }
    {
        match self.write(format) {
            Ok(()) => Ok(()),
            Err(_) => Err(NoMemory),
        }
    }
}

impl Write for Writer {
    ghost write_str_gives = { λ old added new. new ≡ old ++ added };

    fn write_str(&mut self, piece: &str) -> fmt::Result {
        match self.octets(piece.as_bytes()) {
            Ok(()) => Ok(()),
            Err(_) => Err(fmt::Error),
        }
    }
}
