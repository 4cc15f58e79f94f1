//! The name of an object in its outside.
ghost use Rattle.std.specs.Prelude.{◌≡◌, [], string_bytes};

use std::marker::Model;

/// The name or address under which an object in memory stands in its outside; empty for none.
#[derive(Drop)]
pub struct ObjectName {
    text: Option<String>,
}

impl Model for ObjectName {
    ghost use Rattle.std.specs.Prelude.{ℕ, List, [], option_map, unwrap_or, string_bytes};

    ghost Value = { List ℕ };

    ghost view = { λ n. unwrap_or (option_map string_bytes n.text) [] };
}

impl ObjectName {
    /// That of an object which stands nowhere. It takes no memory.
    pub fn none() -> Self
        ensures { result ≡ [] }
    {
        ObjectName { text: None }
    }

    pub fn new(text: String) -> Self
        ensures { result ≡ string_bytes text }
    {
        ObjectName { text: Some(text) }
    }

    pub fn as_str(&self) -> &str
        ensures { result.now ≡ self.now }
    {
        match &self.text {
            Some(text) => text.as_str(),
            None => "",
        }
    }
}
