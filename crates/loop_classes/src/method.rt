//! A method of an accepted class.

ghost use Rattle.std.specs.Prelude.{◌≡◌, None};
ghost use Rattle.bpf_machine.specs.Safe.{IsSafe};
ghost use Rattle.loop_classes.specs.Runs.{method_of, RunsBy, IsRunOf};
ghost use Rattle.loop_classes.specs.Verdict.{IsSafeLooped};

use bpf_decode::Method;
use loop_verdict::LoopMethod;
use std::marker::Model;
use verifier::VerifiedMethod;

/// How a method runs.
#[derive(Drop)]
pub enum MethodRun {
    /// It declares no loops, and runs to its exit.
    Plain(VerifiedMethod),
    /// It runs by the budget that it declares.
    Looped(Method, LoopMethod),
}

/// A method that `verify_loops` accepted. Contracts see a `ClassMethod`.
pub struct LoopClassMethod {
    run: MethodRun,
}

impl Drop for LoopClassMethod {
    fn drop(self) {
        let LoopClassMethod { run } = self;
        drop(run);
    }
}

impl Model for LoopClassMethod {
    ghost use Rattle.bpf_decode.specs.Class.{ClassMethod};
    ghost use Rattle.loop_classes.specs.Runs.{method_of, IsRunOf};

    ghost Value = { ClassMethod };

    ghost view = { λ m. method_of m.run };

    ghost invariant = { λ m. IsRunOf m.run };
}

impl LoopClassMethod {
    /// A method that declares no loops.
    pub(crate) fn plain(method: VerifiedMethod) -> LoopClassMethod
        requires none { method.loops ≡ None }
        requires safe { IsSafe method }
        ensures { result ≡ method }
    {
        LoopClassMethod {
            run: MethodRun::Plain(method),
        }
    }

    /// A method with what runs of it by its budget.
    pub(crate) fn looped(method: Method, run: LoopMethod) -> LoopClassMethod
        requires { RunsBy method run method.loops }
        ensures { result ≡ method }
    {
        LoopClassMethod {
            run: MethodRun::Looped(method, run),
        }
    }

    /// Its name.
    pub fn name(&self) -> &str
        ensures { result.now ≡ self.now.name }
    {
        match &self.run {
            MethodRun::Plain(method) => method.name(),
            MethodRun::Looped(method, _) => method.name(),
        }
    }

    /// How it runs.
    pub fn run(&self) -> &MethodRun
        ensures method { method_of result.now ≡ self.now }
        ensures runs { IsRunOf result.now }
    {
        &self.run
    }
}
