use bpf_decode::ImageError;
use thiserror::Error;
use verifier::Refusal;

/// Why a class isn't loaded. It prints as number and name, as `3 TooMany`. Of several the first by
/// number.
#[derive(Clone, Copy, Debug, PartialEq, Eq, Drop, Error)]
pub enum LoadError {
    /// The bytes are no image.
    #[error("1 Image")]
    Image(ImageError),
    /// A method isn't safe.
    #[error("2 Verdict")]
    Verdict(Refusal),
    /// 64 classes are loaded.
    #[error("3 TooMany")]
    TooMany,
    /// Memory was refused.
    #[error("4 NoMemory")]
    NoMemory,
    /// The cluster has run.
    #[error("5 Started")]
    Started,
}

impl LoadError {
    ghost use Rattle.std.specs.Prelude.{◌≡◌};
    ghost use Rattle.rados_client.specs.Refusals.{load_error_number};

    /// Its number, 1 to 5.
    pub fn number(self) -> u8
        ensures { result ≡ load_error_number self }
    {
        match self {
            LoadError::Image(_) => 1,
            LoadError::Verdict(_) => 2,
            LoadError::TooMany => 3,
            LoadError::NoMemory => 4,
            LoadError::Started => 5,
        }
    }
}
