ghost use Rattle.std.specs.Prelude.{◌≡◌, ◌<◌, length, All, IfOk, IfErr};
ghost use Rattle.osd.specs.Maps.{HasPrimary, IsBookOf, WasMade, WasRefused};

use crate::name::ClusterName;
use crate::sends::Sends;
use group_world::{Epoch, MonitorError};
use map_book::{MapBook, MapError, NewMap};
use placement::NodeId;
use std::marker::Model;

/// The value under the monitors' lock: the book of maps, and the monitors' sender. Contracts see
/// the book.
#[derive(Drop)]
pub(crate) struct Monitors<N: ClusterName> {
    book: MapBook,
    pub sends: Sends<N>,
}

impl<N: ClusterName> Model for Monitors<N> {
    ghost use Rattle.map_book.specs.Book.{Book};
    ghost use Rattle.osd.specs.Maps.{IsBookOf};

    ghost Value = { Book };

    ghost view = { λ m. m.book };

    ghost invariant = { λ m. IsBookOf N.config m.book };
}

impl<N: ClusterName> Monitors<N> {
    /// The monitors by their book.
    pub fn new(book: MapBook, sends: Sends<N>) -> Monitors<N>
        requires { IsBookOf N.config book }
        ensures { result ≡ book }
    {
        Monitors { book, sends }
    }

    /// Makes a map of these up nodes for each group, and gives the maps and their epoch. It refuses
    /// as the book does.
    pub fn new_map(&mut self, up: &[NodeId]) -> Result<(Vec<NewMap>, u32), MapError>
        ensures maps { IfOk result (λ r. (length r.0.items ≡ N.config.groups) × All HasPrimary r.0.items) }
        ensures made { IfOk result (λ r. WasMade N.config up.now r.1) }
        ensures refused { IfErr result (WasRefused N.config up.now) }
    {
        let maps = match self.book.new_map(up) {
            Ok(maps) => maps,
            Err(why) => return Err(why),
        };
        Ok((maps, self.book.epoch().get()))
    }

    /// Activates an interval of a group. It refuses as the group's monitor does.
    pub fn activate(&mut self, group: usize, interval: Epoch) -> Result<(), MonitorError>
        requires { group < N.config.groups }
    {
        self.book.activate(group, interval)
    }
}
