ghost use Rattle.std.specs.Prelude.{◌≡◌, map};
ghost use Rattle.std.specs.Option.{option_map};
ghost use Rattle.cluster_file.specs.Plan.{ended, field_in, first_line, last_in, numbers_in_line, value_in};

use file_words::number_in;

/// The numbers of a file's first line, whether or not a cluster may have them. A number above 2^64
/// - 1 counts as that.
#[derive(Clone, Copy, Drop)]
pub struct ClusterNumbers {
    pub nodes: u64,
    pub replicas: u64,
    pub groups: u64,
    pub shards: u64,
    pub workers: u64,
    pub tries: u64,
}

/// The number after its key.
fn value_in(key: &str, word: &str, value: &str) -> Option<u64>
    ensures { result ≡ value_in key.now word.now value.now }
{
    if word == key { number_in(value) } else { None }
}

/// A key's number, and the words that are left.
fn field_in<'a, 'b>(key: &str, words: &'b [&'a str]) -> Option<(u64, &'b [&'a str])>
    ensures { option_map (λ p. (p.0, map (λ w. w.now) p.1.now)) result ≡ field_in key.now (map (λ w. w.now) words.now) }
{
    match words {
        [word, value, rest @ ..] => {
            let number = value_in(key, *word, *value)?;
            Some((number, rest))
        }
        _ => None,
    }
}

/// The numbers, if no word is left.
fn ended(numbers: ClusterNumbers, words: &[&str]) -> Option<ClusterNumbers>
    ensures { result ≡ ended numbers (map (λ w. w.now) words.now) }
{
    match words {
        [] => Some(numbers),
        [_, ..] => None,
    }
}

/// The last three keys' numbers, and nothing after them.
fn last_in(nodes: u64, replicas: u64, groups: u64, words: &[&str]) -> Option<ClusterNumbers>
    ensures { result ≡ last_in nodes replicas groups (map (λ w. w.now) words.now) }
{
    let (shards, words) = field_in("shards", words)?;
    let (workers, words) = field_in("workers", words)?;
    let (tries, words) = field_in("tries", words)?;
    let numbers = ClusterNumbers {
        nodes,
        replicas,
        groups,
        shards,
        workers,
        tries,
    };
    ended(numbers, words)
}

/// All keys' numbers.
fn numbers_in_line(words: &[&str]) -> Option<ClusterNumbers>
    ensures { result ≡ numbers_in_line (map (λ w. w.now) words.now) }
{
    let (nodes, words) = field_in("nodes", words)?;
    let (replicas, words) = field_in("replicas", words)?;
    let (groups, words) = field_in("groups", words)?;
    last_in(nodes, replicas, groups, words)
}

/// The numbers in the words of the first line, if it is well-formed.
pub(crate) fn first_line(words: &[&str]) -> Option<ClusterNumbers>
    ensures { result ≡ first_line (map (λ w. w.now) words.now) }
{
    match words {
        [word, rest @ ..] => {
            if *word == "cluster" {
                numbers_in_line(rest)
            } else {
                None
            }
        }
        [] => None,
    }
}
