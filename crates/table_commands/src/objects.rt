//! Values of objects.
ghost use Rattle.table_commands.specs.Objects.{name_json, backend_json};

use backend_names::Name;
use json_lines::BackendMembers;
use pool_versions::Backend;
use std::fmt;

/// A name, printed as `"NAME"`, or `null` for nobody.
#[derive(Clone, Copy)]
pub(crate) struct NameObject(pub(crate) Option<Name>);

impl fmt::Display for NameObject {
    ghost use Rattle.std.specs.Prelude.{Some};

    ghost output = { λ n. Some (name_json n.0) };

    fn fmt<W: fmt::Write>(&self, f: &mut fmt::Formatter<W>) -> fmt::Result {
        match self.0 {
            None => f.write_str("null"),
            Some(name) => write!(f, "\"{name}\""),
        }
    }
}

/// A backend, printed as `{"backend":"NAME","address":"ADDRESS"}`, or `null` for nobody.
#[derive(Clone, Copy)]
pub(crate) struct BackendObject(pub(crate) Option<Backend>);

impl fmt::Display for BackendObject {
    ghost use Rattle.std.specs.Prelude.{Some};

    ghost output = { λ b. Some (backend_json b.0) };

    fn fmt<W: fmt::Write>(&self, f: &mut fmt::Formatter<W>) -> fmt::Result {
        match self.0 {
            None => f.write_str("null"),
            Some(backend) => {
                let members = BackendMembers(backend);
                write!(f, "{{{members}}}")
            }
        }
    }
}
