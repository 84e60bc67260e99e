//! The word of a form that is nearest to another word.

use crate::why::forms::FORMS;
use text_advice::word_distance;

/// The word of a form that is nearest to that word, if one is near.
pub(crate) fn nearest(word: &str) -> Option<&'static str> {
    let (mut found, mut least) = (None, usize::MAX);
    for form in &FORMS {
        match word_distance(word.as_bytes(), form.word.as_bytes()) {
            Some(distance) if distance < least => {
                found = Some(form.word);
                least = distance;
            }
            Some(_) | None => {}
        }
    }
    found
}
