//! What the nodes of centres make of inputs, before it is let out.
ghost use Rattle.std.specs.Prelude.{◌≡◌, ◌≤◌, ◌<◌, ◌+◌, ◌++◌, IfOk, List, Ok, OnOk, false, true, ℕ};
ghost use Rattle.mdcc_base.specs.Sizes.{Sizes};
ghost use Rattle.mdcc_option.specs.declared.items.Part.{Part as APart};
ghost use Rattle.mdcc_world_decisions.specs.Represents.{RepresentsLedger};
ghost use Rattle.mdcc_def_ledger.specs.Ledger.{Entry};
ghost use Rattle.mdcc_def_simulation.specs.State.{World as AWorld, counted_event, is_up_at};
ghost use Rattle.mdcc_def_rules.specs.declared.node.Input.{Input as AInput};
ghost use Rattle.mdcc_theorem_node_steps.specs.Inputs.{AreWellFormedParts, IsWellFormedInput};
ghost use Rattle.mdcc_theorem_node_steps.specs.NodeInvariant.{accept_length_in};
ghost use Rattle.mdcc_node.specs.StepPlans.{blank, unless_refused};
ghost use Rattle.mdcc_world.specs.NodeRuns.{HasRun, HasRunMessage};
ghost use Rattle.mdcc_world.specs.Represents.{IsLike, IsLikeSome};
ghost use Rattle.mdcc_world.specs.Report.{begun_entries, begun_tx};
ghost use Rattle.mdcc_theorem_worlds.specs.DeliveryProgress.{at_message};
ghost use Rattle.mdcc_theorem_worlds.specs.StepSends.{is_begin_input};

use crate::nodes::{act_on, receive};
use crate::world::World;
use mdcc_base::{Centre, Memory, TxId};
use mdcc_def_rules::{Answer, Input, Step, StepFault};
use mdcc_option::Transaction;
use mdcc_world_decisions::Decisions;

// The transaction that was begun.
fn begun_tx(answer: &Option<Answer>) -> Option<TxId>
    ensures { result ≡ begun_tx answer.now }
{
    match answer {
        Some(Answer::Begun(tx)) => Some(*tx),
        _ => None,
    }
}

// A transaction is counted where the answer says that it was begun.
fn count_transaction(
    decisions: &mut Decisions,
    transaction: &Transaction,
    answer: &Option<Answer>,
) -> Result<(), Memory>
    ensures { (quorums : Sizes) (entries : List Entry) (a : ℕ) → RepresentsLedger decisions.old quorums entries
        → OnOk result (RepresentsLedger decisions.new quorums (begun_entries a transaction.now (begun_tx answer.now) ++ entries)) }
{
    if let Some(tx) = begun_tx(answer) {
        decisions.begin(tx, transaction.choices(tx).as_slice())?;
    }
    Ok(())
}

// The transaction that an input begins is counted.
fn count(decisions: &mut Decisions, input: &Input, answer: &Option<Answer>) -> Result<(), Memory>
    ensures { (quorums : Sizes) (entries : List Entry) (a : ℕ) (parts : List APart) → input.now ≡ AInput.Begin parts
        → RepresentsLedger decisions.old quorums entries
        → OnOk result (RepresentsLedger decisions.new quorums (begun_entries a parts (begun_tx answer.now) ++ entries)) }
{
    match input {
        Input::Begin(transaction) => count_transaction(decisions, transaction, answer),
        _ => Ok(()),
    }
}

impl World {
    // A tick or a sweep comes to a centre, which is an event.
    pub(crate) fn run_timed(
        &mut self,
        centre: Centre,
        input: &Input,
        step: &mut Step,
    ) -> Result<Result<(), StepFault>, Memory>
        requires formed { IsWellFormedInput input.now }
        requires other { is_begin_input input.now ≡ false }
        requires short { accept_length_in input.now ≤ 2097152 }
        requires blank { step.old ≡ blank }
        requires few { self.old.events < 100000 }
        requires like { IsLikeSome self.old }
        requires up { (w : AWorld) → IsLike self.old w → is_up_at w centre ≡ true }
        ensures made { (w : AWorld) → IsLike self.old w
            → IfOk result (λ made. HasRun self.new (counted_event w) centre input.now (unless_refused made step.new)) }
        ensures few { self.new.events ≤ self.old.events + 1 }
    {
        self.events += 1;
        let made = act_on(&mut self.nodes, centre, input, step)?;
        Ok(made)
    }

    // A transaction is begun at a centre, or refused by it, which is an event.
    pub(crate) fn run_begin(
        &mut self,
        centre: Centre,
        transaction: Transaction,
        step: &mut Step,
    ) -> Result<(), Memory>
        requires blank { step.old ≡ blank }
        requires few { self.old.events < 100000 }
        requires formed { AreWellFormedParts transaction }
        requires like { IsLikeSome self.old }
        requires up { (w : AWorld) → IsLike self.old w → is_up_at w centre ≡ true }
        ensures made { (w : AWorld) → IsLike self.old w
            → OnOk result (HasRun self.new (counted_event w) centre (AInput.Begin transaction) (Ok step.new)) }
        ensures few { self.new.events ≤ self.old.events + 1 }
    {
        self.events += 1;
        let input = Input::Begin(transaction);
        let Ok(()) = act_on(&mut self.nodes, centre, &input, step)? else {
            return Err(Memory);
        };
        count(&mut self.decisions, &input, &step.answer)?;
        Ok(())
    }

    // The message of a number comes to its centre, which is an event. Message and centre are there.
    pub(crate) fn run_message(
        &mut self,
        number: u32,
        step: &mut Step,
    ) -> Result<(Centre, Result<(), StepFault>), Memory>
        requires blank { step.old ≡ blank }
        requires few { self.old.events < 100000 }
        requires like { IsLikeSome self.old }
        requires clear { (w : AWorld) → IsLike self.old w → at_message w number ≡ Ok tt }
        ensures made { (w : AWorld) → IsLike self.old w
            → IfOk result (λ r. HasRunMessage self.new w number r.0 (unless_refused r.1 step.new)) }
        ensures few { self.new.events ≤ self.old.events + 1 }
    {
        if !self
            .network
            .read_into(self.alloc, number, &mut self.envelope)?
        {
            return Err(Memory);
        }
        let Some(centre) = Centre::new(self.envelope.to) else {
            return Err(Memory);
        };
        self.events += 1;
        let made = receive(&mut self.nodes, centre, &self.envelope, step)?;
        self.network.deliver(number);
        Ok((centre, made))
    }
}
