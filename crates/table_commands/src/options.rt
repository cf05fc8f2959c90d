//! What `table`, `pick` and `compare` are asked alike.
use json_lines::Form;

/// How a command prints, and the size and the hash of its tables, as a command line names them.
#[derive(Clone, Copy, Debug)]
pub struct TableOptions<'a> {
    pub form: Form,
    pub size: u32,
    pub hash: &'a str,
}
