//! A text that is kept, or that goes to a device page by page.
//!
//! Who makes a long text puts it together in a string, and turns the page now and then. Where the text is kept nothing comes of
//! it. Else the device gets what is there, and the string is used again, so that memory doesn't grow with the text.
#![tactic(auto)]

mod kept;
mod pages;
mod streamed;

pub use kept::Kept;
pub use pages::Pages;
pub use streamed::Streamed;
