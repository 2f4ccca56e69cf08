//! The nodes of a world.
ghost use Rattle.std.specs.Prelude.{◌≡◌, ◌≤◌, IfOk, OnOk, false, length, true};
ghost use Rattle.mdcc_node.specs.StepPlans.{blank, unless_refused};
ghost use Rattle.mdcc_node.specs.StepAnswers.{step_result};
ghost use Rattle.mdcc_def_rules.specs.declared.node.Input.{Input as AInput};
ghost use Rattle.mdcc_def_ledger.specs.Ledger.{facts_of};
ghost use Rattle.mdcc_def_protocol.specs.Visible;
ghost use Rattle.mdcc_def_simulation.specs.State.{World as AWorld, is_up_at};
ghost use Rattle.mdcc_def_simulation.specs.AppliedSteps.{input_happened, step_at};
ghost use Rattle.mdcc_theorem_node_steps.specs.NodeInvariant.{accept_length_in};
ghost use Rattle.mdcc_theorem_node_steps.specs.Inputs.{IsWellFormedInput};
ghost use Rattle.mdcc_world.specs.Nodes.{NodesRepresent, RunsAt, is_memory_run};
ghost use Rattle.mdcc_theorem_worlds.specs.WorldInvariant.{IsWorld};

use mdcc_base::{Centre, Key, Memory};
use mdcc_def_messages::Envelope;
use mdcc_def_protocol::Reading;
use mdcc_def_rules::{Answer, Input, Step, StepFault};
use mdcc_node::{Node, blank};
use mdcc_world_logs::CentreFacts;
use std::alloc::Global;

// Tells want of memory from what a node makes of an input.
fn run_result(acted: Result<(), StepFault>) -> Result<Result<(), StepFault>, Memory>
    ensures same { IfOk result (λ made. made ≡ acted) }
    ensures memory { OnOk result (is_memory_run acted ≡ false) }
{
    match acted {
        Err(StepFault::Memory) => Err(Memory),
        acted => Ok(acted),
    }
}

/// An input comes to the node of a centre that is up: what it makes of it is written into a blank step.
pub(crate) fn act_on(
    nodes: &mut [Node<CentreFacts>],
    centre: Centre,
    input: &Input,
    step: &mut Step,
) -> Result<Result<(), StepFault>, Memory>
    requires within { centre ≤ length nodes.old }
    requires formed { IsWellFormedInput input.now }
    requires short { accept_length_in input.now ≤ 2097152 }
    requires running { RunsAt nodes.old centre }
    requires blank { step.old ≡ blank }
    ensures answer { (w : AWorld) → NodesRepresent nodes.old w → is_up_at w centre ≡ true
        → IfOk result (λ made. unless_refused made step.new ≡ step_result (step_at w centre input.now)) }
    ensures left { (w : AWorld) → IsWorld w → NodesRepresent nodes.old w → is_up_at w centre ≡ true
        → OnOk result (NodesRepresent nodes.new (input_happened w centre (step_at w centre input.now)).world) }
{
    run_result(nodes[usize::from(centre.number()) - 1].act_on(input, step))
}

/// The same for a message.
pub(crate) fn receive(
    nodes: &mut [Node<CentreFacts>],
    centre: Centre,
    envelope: &Envelope,
    step: &mut Step,
) -> Result<Result<(), StepFault>, Memory>
    requires within { centre ≤ length nodes.old }
    requires formed { IsWellFormedInput (AInput.Message envelope.now) }
    requires short { accept_length_in (AInput.Message envelope.now) ≤ 2097152 }
    requires running { RunsAt nodes.old centre }
    requires blank { step.old ≡ blank }
    ensures answer { (w : AWorld) → NodesRepresent nodes.old w → is_up_at w centre ≡ true
        → IfOk result (λ made. unless_refused made step.new ≡ step_result (step_at w centre (AInput.Message envelope.now))) }
    ensures left { (w : AWorld) → IsWorld w → NodesRepresent nodes.old w → is_up_at w centre ≡ true
        → OnOk result (NodesRepresent nodes.new (input_happened w centre (step_at w centre (AInput.Message envelope.now))).world) }
{
    run_result(nodes[usize::from(centre.number()) - 1].deliver(envelope, step))
}

/// What a key shows at the node of a centre that is up, which is left as it was.
pub(crate) fn read(
    alloc: Global,
    nodes: &mut [Node<CentreFacts>],
    centre: Centre,
    key: &Key,
) -> Result<Reading, Memory>
    requires within { centre ≤ length nodes.old }
    requires running { RunsAt nodes.old centre }
    ensures shown { (w : AWorld) → NodesRepresent nodes.old w → is_up_at w centre ≡ true
        → IfOk result (λ reading. reading ≡ Visible.read (facts_of w.ledger centre) key.now) }
    ensures left { (w : AWorld) → IsWorld w → NodesRepresent nodes.old w → is_up_at w centre ≡ true
        → OnOk result (NodesRepresent nodes.new w) }
{
    let _key = key.bytes();
    let mut step = blank(alloc);
    let Ok(()) = act_on(nodes, centre, &Input::Read(*key), &mut step)? else {
        return Err(Memory);
    };
    let Step { answer, .. } = step;
    match answer {
        Some(Answer::Read(reading)) => Ok(reading),
        _ => Err(Memory),
    }
}
