//! How what a node sends comes to its receiver: a node, the monitors or a client.

ghost use Rattle.std.specs.Prelude.{◌<◌};
ghost use Rattle.osd.specs.Sent.{OnlySent, IsInternalTo};

use crate::delivery::Origin;
use crate::name::ClusterName;
use crate::running::Running;
use crate::sends::Sends;
use carried::{Carried, CarriedKind, CarriedMessage, Operation};
use group_cell::{Outgoing, Post};
use group_world::{Epoch, Party};
use pg_log::ClientId;
use std::sync::Wait;

impl<N: ClusterName, R: Wait> Running<N, R> {
    /// Brings what a node sends, if there is something, to its receiver. It is lost if a queue is
    /// full, or if memory is refused.
    pub(crate) fn deliver(
        &self,
        sends: &mut Sends<N>,
        origin: &Origin,
        outgoing: Option<Outgoing<N>>,
    )
        ensures { OnlySent sends.old sends.new (IsInternalTo origin.now.group) }
    {
        let Some(outgoing) = outgoing else {
            return;
        };
        match outgoing {
            Outgoing::ToNode(node, message) => {
                let _ = self.submit(
                    sends,
                    origin.cause,
                    Operation {
                        group: origin.group,
                        node,
                        carried: Carried::Message(message),
                    },
                );
            }
            Outgoing::ToMonitor(interval) => {
                self.ask_monitor(sends, origin, interval);
            }
            Outgoing::ToClient(client, post) => self.post(client, post),
        }
    }

    /// Asks the group's monitor to activate the interval, and tells the node if it did.
    fn ask_monitor(&self, sends: &mut Sends<N>, origin: &Origin, interval: Epoch)
        ensures { OnlySent sends.old sends.new (IsInternalTo origin.now.group) }
    {
        let group = origin.group;
        if group >= self.config.groups as usize || !self.activates(group, interval) {
            return;
        }
        let message = CarriedMessage {
            sender: Party::Monitor,
            kind: CarriedKind::Activated(interval),
        };
        let _ = self.submit(
            sends,
            origin.cause,
            Operation {
                group,
                node: origin.sender,
                carried: Carried::Message(message),
            },
        );
    }

    /// Has the group's monitor activate the interval. Answers whether it did.
    fn activates(&self, group: usize, interval: Epoch) -> bool
        requires { group < N.config.groups }
    {
        let mut monitors = self.monitors.lock(&self.rt);
        monitors.activate(group, interval).is_ok()
    }

    /// Puts an answer into the client's mailbox, over the one that is there. It is lost if the
    /// client has no mailbox.
    fn post(&self, client: ClientId, post: Post<N>) {
        let place = (client.get() - 1) as usize;
        if let Some(mailbox) = self.mail.get(place) {
            mailbox.put(&self.rt, post);
        }
    }
}
