//! Nodes that make durable in groups, crash with or without their last one, and boot again: their ledger is allowed, and their messages tell the
//! truth. A step of a replay is a group of one.
#![tactic(auto)]

ghost use Rattle.mdcc_theorem_commit_groups.specs.Alone.{StepsGoOutAlone};
ghost use Rattle.mdcc_theorem_commit_groups.specs.Groups.{GoodStepsSuffice};
ghost use Rattle.mdcc_theorem_commit_groups.specs.Nodes.{EventsKeepSound, NodesAreSound};

/// What a centre took since its last append may become durable together, whatever the other centres did meanwhile, or be lost
/// together.
pub fn groups_stand()
    ensures { GoodStepsSuffice }
{}

/// Where each step of a node is good, and no message comes that was not sent, the ledger of what is durable in a cluster of nodes is
/// allowed after any events, and all messages told the truth: nodes make durable in groups, crash with or without their last one, and
/// boot again.
pub fn nodes_are_sound()
    ensures events { EventsKeepSound }
    ensures all { NodesAreSound }
{}

/// What a step of a replay lets out is the case of one step of what a served centre lets out: with nothing pending before, its fact becomes
/// durable as a group of one, and then the same messages are sent and the same outcome is told as in a world where no stop strikes.
pub fn steps_go_out_alone()
    ensures { StepsGoOutAlone }
{}
