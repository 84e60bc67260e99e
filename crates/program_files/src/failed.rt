ghost use Rattle.std.specs.Prelude.{◌≡◌};
ghost use Rattle.program_files.specs.declared.failure.Failure.TheVariants.{NoMemory};

use crate::failure::Failure;
use crate::image::ClassSource;
use bpf_decode::IMAGE_LIMIT;
use std::alloc::{AllocError, AllocFailed, Global};

/// What a failure is about, as far as its explanation needs it.
#[derive(Drop)]
pub enum About {
    /// No more than the failure says.
    Nothing,
    /// A text that is no class's.
    Text(String),
    /// The same, and each wrong line is explained.
    EachLine(String),
    /// Bytes that are no image.
    Image(Vec<u8>),
    /// A class that is refused.
    Class(ClassSource),
    /// A method's name, the file of its raw code, IN and OUT, of those that are packed; or all of
    /// them.
    Method(String, String, u16, u16),
    Methods,
}

/// A failure, and what is needed to explain it.
#[derive(Drop)]
pub struct Failed {
    /// Why what is asked for was not done.
    pub failure: Failure,
    /// What explains it.
    pub about: About,
}

impl From<Failure> for Failed {
    ghost from_gives = { λ failure failed. failed.failure ≡ failure };

    fn from(failure: Failure) -> Failed {
        Failed {
            failure,
            about: About::Nothing,
        }
    }
}

impl From<Failed> for Failure {
    ghost from_gives = { λ failed failure. failure ≡ failed.failure };

    fn from(failed: Failed) -> Failure {
        failed.failure
    }
}

impl From<AllocError> for Failed {
    ghost from_gives = { λ _ failed. failed.failure ≡ NoMemory };

    fn from(_error: AllocError) -> Failed {
        Failed::from(Failure::NoMemory)
    }
}

impl<T: Drop> From<AllocFailed<T>> for Failed {
    ghost from_gives = { λ _ failed. failed.failure ≡ NoMemory };

    fn from(_error: AllocFailed<T>) -> Failed {
        Failed::from(Failure::NoMemory)
    }
}

impl Failed {
    ghost use Rattle.std.specs.Prelude.{◌≡◌};

    /// The same failure, whose note has each wrong line of a text, and not the first alone.
    pub fn of_each_line(self) -> Failed
        ensures { result.failure ≡ self.failure }
    {
        let Failed { failure, about } = self;
        match about {
            About::Text(text) => Failed {
                failure,
                about: About::EachLine(text),
            },
            about => Failed { failure, about },
        }
    }
}

/// The beginning of bytes that are no image, as far as one may be long.
pub(crate) fn about_image(alloc: Global, bytes: &[u8]) -> About {
    match Vec::from_slice(alloc, &bytes[..bytes.len().min(IMAGE_LIMIT)]) {
        Ok(bytes) => About::Image(bytes),
        Err(_) => About::Nothing,
    }
}
