//! Members that several objects have.
use maglev_texts::AddressText;
use pool_versions::Backend;
use std::fmt;

/// A backend, printed as `"backend":"NAME","address":"ADDRESS"`.
#[derive(Clone, Copy)]
pub struct BackendMembers(pub Backend);

impl fmt::Display for BackendMembers {
    ghost use Rattle.std.specs.Prelude.{Some};
    ghost use Rattle.json_lines.specs.Members.{backend_members};

    ghost output = { λ b. Some (backend_members b.0) };

    fn fmt<W: fmt::Write>(&self, f: &mut fmt::Formatter<W>) -> fmt::Result {
        let name = self.0.name;
        let address = AddressText(self.0.addr);
        write!(f, "\"backend\":\"{name}\",\"address\":\"{address}\"")
    }
}

/// A truth value, printed as `true` or `false`.
#[derive(Clone, Copy)]
pub struct BoolText(pub bool);

impl fmt::Display for BoolText {
    ghost use Rattle.std.specs.Prelude.{Some};
    ghost use Rattle.json_lines.specs.Members.{bool_json};

    ghost output = { λ b. Some (bool_json b.0) };

    fn fmt<W: fmt::Write>(&self, f: &mut fmt::Formatter<W>) -> fmt::Result {
        match self.0 {
            true => f.write_str("true"),
            false => f.write_str("false"),
        }
    }
}
