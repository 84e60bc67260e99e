ghost use Rattle.std.specs.Prelude.{◌≡◌, IfOk, map};
ghost use Rattle.cluster_file.specs.Reading.{IsReading, StepsRead};
ghost use Rattle.cluster_file.specs.Plan.{clients_in, plan_of};

use crate::cluster_numbers::{ClusterNumbers, first_line};
use crate::planned_step::{PlannedStep, read_step};
use file_words::{ended_lines, words};
use std::alloc::{AllocError, Global};
use std::marker::Model;

/// The contents of a file: the numbers of its first line, and the step of each further line, in
/// their order.
#[derive(Drop)]
pub struct Plan {
    numbers: ClusterNumbers,
    steps: Vec<PlannedStep>,
    clients: u32,
    ghost counted: { clients ≡ clients_in 0 steps.items },
}

impl Model for Plan {
    ghost use Rattle.cluster_file.specs.Plan.{FilePlan};

    ghost Value = { FilePlan };

    ghost view = { λ p. record { numbers = p.numbers; steps = p.steps.items } };
}

impl Plan {
    fn new(numbers: ClusterNumbers, steps: Vec<PlannedStep>, clients: u32) -> Plan
        requires { clients ≡ clients_in 0 steps.items }
        ensures { result ≡ record { numbers = numbers; steps = steps.items } }
    {
        Plan {
            numbers,
            steps,
            clients,
        }
    }

    /// The numbers of the first line.
    pub fn numbers(&self) -> ClusterNumbers
        ensures { result ≡ self.now.numbers }
    {
        self.numbers
    }

    /// The steps of the lines after the first, in their order.
    pub fn steps(&self) -> &[PlannedStep]
        ensures { result.now ≡ self.now.steps }
    {
        &self.steps
    }

    /// The number of clients that it names, 0 to 64.
    pub fn clients(&self) -> u32
        ensures { result ≡ clients_in 0 self.now.steps }
    {
        self.clients
    }
}

/// The result of reading a file.
#[derive(Drop)]
pub enum Reading {
    /// It is well-formed.
    Plan(Plan),
    /// The first malformed line, by its number from 1.
    Bad(usize),
}

/// The end of reading the lines after the first.
enum Ended {
    /// All are well-formed, and name this number of clients.
    All(u32),
    /// The first malformed line, by its number.
    Bad(usize),
}

/// Reads the lines after the first, up to the first that is malformed.
fn read_steps(
    alloc: Global,
    names: &[&str],
    lines: &[&str],
    steps: &mut Vec<PlannedStep>,
) -> Result<Ended, AllocError>
    ensures { IfOk result
        (λ e. StepsRead (map (λ n. n.now) names.now) (map (λ l. l.now) lines.now) steps.old.items steps.new.items e) }
{
    let mut clients = 0;
    // The first line is read already, so these begin with line 2.
    let mut number = 1;
    for line in lines {
        number += 1;
        let Some(step) = read_step(alloc, names, number, clients, *line)? else {
            return Ok(Ended::Bad(number));
        };
        clients = step.clients_after(clients);
        steps.push(step)?;
    }
    Ok(Ended::All(clients))
}

/// Reads a whole file. The classes have these names, in the order of their ids from 0.
pub fn read_plan(alloc: Global, names: &[&str], text: &str) -> Result<Reading, AllocError>
    ensures { IfOk result (λ r. IsReading (plan_of (map (λ n. n.now) names.now) text.now) r) }
{
    let lines = ended_lines(alloc, text)?;
    // Even an empty file has one line, so the other case is never met.
    let [first, rest @ ..] = lines.as_slice() else {
        return Ok(Reading::Bad(1));
    };
    let first_words = words(alloc, *first)?;
    let Some(numbers) = first_line(&first_words) else {
        return Ok(Reading::Bad(1));
    };
    let mut steps = Vec::new(alloc);
    match read_steps(alloc, names, rest, &mut steps)? {
        Ended::Bad(line) => Ok(Reading::Bad(line)),
        Ended::All(clients) => Ok(Reading::Plan(Plan::new(numbers, steps, clients))),
    }
}
