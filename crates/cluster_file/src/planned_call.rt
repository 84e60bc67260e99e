ghost use Rattle.std.specs.Prelude.{◌≡◌};

use object_store::ObjectName;
use pg_log::ClientId;
use std::marker::Model;

/// A call as a file plans it: its client, object, class, method and input. It keeps the class's
/// word too: a class that isn't loaded has nothing else.
#[derive(Drop)]
pub struct PlannedCall {
    pub(crate) client: ClientId,
    pub(crate) object: ObjectName,
    pub(crate) class: usize,
    pub(crate) word: String,
    pub(crate) method: String,
    pub(crate) input: Vec<u8>,
}

impl Model for PlannedCall {
    ghost use Rattle.std.specs.Prelude.{string_bytes};
    ghost use Rattle.cluster_file.specs.Planned.{PlannedCall};

    ghost Value = { PlannedCall };

    ghost view = { λ c. record {
      client = c.client;
      object = c.object;
      class = c.class;
      word = string_bytes c.word;
      method = string_bytes c.method;
      input = c.input.items;
    } };
}

impl PlannedCall {
    /// Its client, 1 to 64.
    pub fn client(&self) -> ClientId
        ensures { result ≡ self.now.client }
    {
        self.client
    }

    /// The object that it runs on.
    pub fn object(&self) -> &ObjectName
        ensures { result.now ≡ self.now.object }
    {
        &self.object
    }

    /// The id of its class, or 64, which no class has.
    pub fn class(&self) -> usize
        ensures { result ≡ self.now.class }
    {
        self.class
    }

    /// The word that names its class.
    pub fn word(&self) -> &str
        ensures { result.now ≡ self.now.word }
    {
        &self.word
    }

    /// The name of its method.
    pub fn method(&self) -> &str
        ensures { result.now ≡ self.now.method }
    {
        &self.method
    }

    /// Its input.
    pub fn input(&self) -> &[u8]
        ensures { result.now ≡ self.now.input }
    {
        &self.input
    }
}
