ghost use Rattle.std.specs.Prelude.{◌≡◌, ◌==◌, ◌⊎◌, ◌↔◌, true, false, Some, None, Err, IfOk, IfErr, IfSome};
ghost use Rattle.std.specs.Prelude.{MatchOption, OnErr};
ghost use Rattle.osd.specs.Limits.{is_within_limits};
ghost use Rattle.rados_client.specs.Loading.{HasBuiltIn, IsAdded, IsBuiltIn, IsVerified, class_refusal, load_refusal};
ghost use Rattle.rados_client.specs.Loading.{refusal_of_room, refusal_of_start};
ghost use Rattle.rados_client.specs.declared.run_error.RunError.TheVariants.{Started};

use crate::class_id::ClassId;
use crate::config_error::ConfigError;
use crate::load_error::LoadError;
use crate::run_error::RunError;
use bpf_decode::{DecodeError, read_image};
use builtin_classes::{load_lock, load_obj};
use interp::{CLASS_LIMIT, ClassTable, TableError};
use osd::{ClusterParts, Config, Scenario, play};
use std::alloc::Global;
use std::marker::Model;
use std::mem;
use std::sync::Wait;
use std::thread::Threads;
use verifier::{Rule, VerifiedClass, verify};

/// A cluster of nodes in one process, before and after it runs. Classes are loaded before; then a
/// scenario is run on it, which opens sessions and brings the threads. Contracts see how many
/// classes are loaded; before it runs also what it is made of, and which classes.
pub struct Cluster {
    alloc: Global,
    stage: Stage,
}

// Written out, here and at the other public types, so that a crate that drops one calls this and
// needn't prove again how its parts are dropped.
impl Drop for Cluster {
    fn drop(self) {
        let Cluster { alloc: _, stage } = self;
        drop(stage);
    }
}

/// The stage of a cluster.
#[derive(Drop)]
enum Stage {
    /// It hasn't run: it has its parts and its classes.
    Idle(ClusterParts, ClassTable),
    /// It has run, with this number of classes.
    Started(usize),
}

impl Model for Cluster {
    ghost use Rattle.rados_client.specs.Loading.{ClusterState};

    ghost Value = { ClusterState };

    ghost use Rattle.rados_client.specs.Stages.{state_of};

    ghost view = { λ c. state_of c.stage };
}

impl Cluster {
    /// A cluster of these nodes, with a map of epoch 1 in which all nodes are up. The classes
    /// `lock` and `obj` are loaded, with the ids 0 and 1. No thread is started. Refused: `Limit`
    /// exactly if a number is outside its limits, else `NoMemory`.
    pub fn new(alloc: Global, config: Config) -> Result<Cluster, ConfigError>
        ensures limit { (result ≡ Err ConfigError.Limit) ↔ (is_within_limits config ≡ false) }
        ensures made { IfOk result (HasBuiltIn config) }
    {
        if !config.is_within_limits() {
            return Err(ConfigError::Limit);
        }
        let Ok(parts) = ClusterParts::new(alloc, config) else {
            return Err(ConfigError::NoMemory);
        };
        let Some(table) = built_in(alloc) else {
            return Err(ConfigError::NoMemory);
        };
        Ok(Cluster {
            alloc,
            stage: Stage::Idle(parts, table),
        })
    }

    /// Loads a class from its image, and gives its id; the first has id 2, the next 3, and so on.
    /// Its methods are verified to be safe.
    ///
    /// Refused, the first that applies, and the cluster is as it was: `Image` if the bytes are
    /// no image, `Verdict` if a method isn't safe, `TooMany` if 64 classes are loaded,
    /// `NoMemory`, `Started` if the cluster has run.
    pub fn load_class(&mut self, image: &[u8]) -> Result<ClassId, LoadError>
        ensures loaded { IfOk result (IsAdded image.now self.old self.new) }
        ensures refused { IfErr result (λ e. (load_refusal image.now self.old ≡ Some e) ⊎ (e ≡ LoadError.NoMemory)) }
        ensures kept { OnErr result (self.new ≡ self.old) }
    {
        let class = verified(self.alloc, image)?;
        match &mut self.stage {
            Stage::Idle(_, table) => match table.add(class) {
                Ok(id) => Ok(ClassId::new(id)),
                Err(TableError::TooMany) => Err(LoadError::TooMany),
                Err(TableError::NoMemory) => Err(LoadError::NoMemory),
            },
            Stage::Started(count) => {
                drop(class);
                Err(started_with(*count))
            }
        }
    }

    /// Gives the parts and the classes to who names the cluster (`Running::named`) and brings its
    /// threads: a scenario of `run` can start none. From then on the cluster has started. None
    /// exactly if it had started before.
    pub fn start(&mut self) -> Option<(ClusterParts, ClassTable)>
        ensures given { MatchOption result (self.old.classes ≡ None)
            (λ p. (self.old.config ≡ Some p.0.config) × (self.old.classes ≡ Some p.1)) }
        ensures spent { self.new ≡ record {
          count = self.old.count;
          config = None;
          classes = None;
        } }
    {
        let started = Stage::Started(self.stage.count());
        match mem::replace(&mut self.stage, started) {
            Stage::Idle(parts, table) => Some((parts, table)),
            Stage::Started(_) => None,
        }
    }

    /// Runs the scenario on the cluster with the classes that are loaded. It is done once: from
    /// then on the cluster has started, and no class is loaded any more.
    ///
    /// Refused: `Started` exactly if the cluster was run before, `NoMemory` if memory for the
    /// nodes is refused; then nothing was run, and the cluster has started.
    pub fn run<S: Scenario, R: Threads + Wait + Sync + Drop>(
        &mut self,
        rt: R,
        scenario: &S,
    ) -> Result<S::Output, RunError>
        ensures given { IfOk result (λ o. IfSome self.old.classes (λ classes. S.gives classes scenario.now o)) }
        ensures started { (result ≡ Err Started) ↔ (self.old.classes ≡ None) }
        ensures spent { self.new ≡ record {
          count = self.old.count;
          config = None;
          classes = None;
        } }
    {
        let started = Stage::Started(self.stage.count());
        match mem::replace(&mut self.stage, started) {
            Stage::Idle(parts, table) => match play(self.alloc, rt, parts, table, scenario) {
                Ok(output) => Ok(output),
                Err(_) => Err(RunError::NoMemory),
            },
            Stage::Started(_) => Err(RunError::Started),
        }
    }
}

impl Stage {
    ghost use Rattle.rados_client.specs.Stages.{state_of};

    /// The number of loaded classes.
    fn count(&self) -> usize
        ensures { result ≡ (state_of self.now).count }
    {
        match self {
            Stage::Idle(_, table) => table.len(),
            Stage::Started(count) => *count,
        }
    }
}

/// Why no class is loaded into a cluster that has started with this number of classes.
fn started_with(count: usize) -> LoadError
    ensures { Some result ≡ refusal_of_room (count == CLASS_LIMIT) (refusal_of_start None) }
{
    if count == CLASS_LIMIT {
        LoadError::TooMany
    } else {
        LoadError::Started
    }
}

/// A table with the classes `lock` and `obj`. None if memory is refused: their texts are
/// constants, which tests load.
fn built_in(alloc: Global) -> Option<ClassTable>
    ensures { IfSome result IsBuiltIn }
{
    let lock = load_lock(alloc).ok()?;
    let obj = load_obj(alloc).ok()?;
    let mut table = ClassTable::new(alloc);
    table.add(lock).ok()?;
    table.add(obj).ok()?;
    Some(table)
}

/// The class of an image, whose methods are safe.
fn verified(alloc: Global, image: &[u8]) -> Result<VerifiedClass, LoadError>
    ensures class { IfOk result (IsVerified image.now) }
    ensures refused { IfErr result (λ e. (class_refusal image.now ≡ Some e) ⊎ (e ≡ LoadError.NoMemory)) }
{
    let read = match read_image(alloc, image) {
        Ok(read) => read,
        Err(error) => match error.error {
            DecodeError::NoMemory => return Err(LoadError::NoMemory),
            _ => return Err(LoadError::Image(error)),
        },
    };
    match verify(alloc, &read) {
        Ok(class) => Ok(class),
        Err(refusal) => match refusal.rule {
            Rule::NoMemory => Err(LoadError::NoMemory),
            _ => Err(LoadError::Verdict(refusal)),
        },
    }
}
