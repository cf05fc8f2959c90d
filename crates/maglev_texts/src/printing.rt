use five_tuple::Flow;
use pool_versions::Backend;
use std::fmt;

/// An IPv4 address, printed as four numbers joined by dots.
#[derive(Clone, Copy, Debug)]
pub struct AddressText(pub u32);

/// A backend, printed as `NAME@ADDRESS`.
#[derive(Clone, Copy, Debug)]
pub struct BackendText(pub Backend);

/// A flow, printed as its protocol, a space and `SRC:SPORT>DST:DPORT`. The protocol is `tcp`, `udp` or a number.
#[derive(Clone, Copy, Debug)]
pub struct FlowText(pub Flow);

#[derive(Clone, Copy)]
struct ProtocolText(u8);

impl fmt::Display for AddressText {
    ghost use Rattle.std.specs.Prelude.{Some};
    ghost use Rattle.maglev_texts.specs.Printing.{address_text};

    ghost output = { λ a. Some (address_text a.0) };

    fn fmt<W: fmt::Write>(&self, f: &mut fmt::Formatter<W>) -> fmt::Result {
        let a = self.0 / 16_777_216;
        let b = self.0 / 65_536 % 256;
        let c = self.0 / 256 % 256;
        let d = self.0 % 256;
        write!(f, "{a}.{b}.{c}.{d}")
    }
}

impl fmt::Display for BackendText {
    ghost use Rattle.std.specs.Prelude.{Some};
    ghost use Rattle.maglev_texts.specs.Printing.{backend_text};

    ghost output = { λ b. Some (backend_text b.0) };

    fn fmt<W: fmt::Write>(&self, f: &mut fmt::Formatter<W>) -> fmt::Result {
        let name = self.0.name;
        let address = AddressText(self.0.addr);
        write!(f, "{name}@{address}")
    }
}

impl fmt::Display for ProtocolText {
    ghost use Rattle.std.specs.Prelude.{Some};
    ghost use Rattle.maglev_texts.specs.Printing.{protocol_text};

    ghost output = { λ p. Some (protocol_text p.0) };

    fn fmt<W: fmt::Write>(&self, f: &mut fmt::Formatter<W>) -> fmt::Result {
        let proto = self.0;
        match proto {
            6 => f.write_str("tcp"),
            17 => f.write_str("udp"),
            _ => write!(f, "{proto}"),
        }
    }
}

impl fmt::Display for FlowText {
    ghost use Rattle.std.specs.Prelude.{Some};
    ghost use Rattle.maglev_texts.specs.Printing.{flow_text};

    ghost output = { λ x. Some (flow_text x.0) };

    fn fmt<W: fmt::Write>(&self, f: &mut fmt::Formatter<W>) -> fmt::Result {
        let flow = self.0;
        let protocol = ProtocolText(flow.proto);
        let source = AddressText(flow.src);
        let sport = flow.sport;
        let destination = AddressText(flow.dst);
        let dport = flow.dport;
        write!(f, "{protocol} {source}:{sport}>{destination}:{dport}")
    }
}
