//! The node's rules for centres that are behind: what it gives another one, and what it adopts.
ghost use Rattle.std.specs.Prelude.{◌≡◌, ◌++◌, List, OnOk};
ghost use Rattle.mdcc_def_messages.specs.declared.facts.Fact.{Fact as AFact};
ghost use Rattle.mdcc_node.specs.StepPlans.{MayFollow, blank, planned};
ghost use Rattle.mdcc_def_protocol.specs.Volatile.{Volatile as AVolatile};
ghost use Rattle.mdcc_def_rules.specs.SyncRules.{give_sent, sync_give_step};

use crate::node::Node;
use mdcc_base::{HeapList, Key, Memory};
use mdcc_def_messages::{Envelope, Message};
use mdcc_def_protocol::Give;
use mdcc_def_rules::Step;
use mdcc_facts::FactStore;
use mdcc_node_sends::send;
use mdcc_visible::{on_sync_ask, on_sync_give};

impl<S: FactStore + Drop> Node<S> {
    // What this node holds of a key goes to a centre, where there is a version.
    pub(crate) fn give(
        &self,
        to: u8,
        key: &Key,
        sends: &mut HeapList<Envelope>,
    ) -> Result<(), Memory>
        ensures { (facts : List AFact) → S.stands self.now.store facts
            → OnOk result (sends.new ≡ sends.old ++ give_sent self.now.centre facts to key.now) }
    {
        match on_sync_ask(self.alloc, &self.store, key)? {
            Some(give) => {
                let message = Message::SyncGive {
                    key: give.key,
                    version: give.version,
                    item: give.item,
                    adds: give.adds,
                };
                send(self.alloc, self.centre.number(), to, message, sends)
            }
            None => Ok(()),
        }
    }

    // Data of a key came. They are adopted where they bring something new.
    pub(crate) fn adopt(&self, give: &Give, step: &mut Step) -> Result<(), Memory>
        requires { step.old ≡ blank }
        ensures plan { (facts : List AFact) (volatile : AVolatile) → S.stands self.now.store facts
            → OnOk result (step.new ≡ planned (sync_give_step facts volatile give.now)) }
        ensures fact { (facts : List AFact) → S.stands self.now.store facts → OnOk result (MayFollow facts step.new.fact) }
    {
        step.fact = on_sync_give(self.alloc, &self.store, give)?;
        Ok(())
    }
}
