ghost use Rattle.std.specs.Prelude.{◌≡◌, length, IfOk};
ghost use Rattle.pv_network.specs.declared.event.NodeName.TheVariants.{Udc, Centre};
ghost use Rattle.pv_network.specs.Cutting.{node_of};
ghost use Rattle.pv_network.specs.Standing.{IsPossibleStoring, TakesCut};

use crate::event::NodeName;
use crate::network::Network;
use crate::network::crashing::new_seats;
use crate::outcome::Outcome;
use crate::storing::Storing;
use crate::verdict::stop;
use pv_irc::letters_wait_by_places;
use pv_nodes::a_centre_shows_what_the_list_shows;
use std::alloc::AllocError;

impl Network {
    /// A node is lost within a command, and opened again from this image of its disk. What it answers goes to nobody; the
    /// outcome says what became of the record that was to be stored. The only error is that memory ran out.
    pub(super) fn cut(
        &mut self,
        calls: u8,
        image: u8,
        command: &Storing,
    ) -> Result<Outcome, AllocError>
        requires { IsPossibleStoring self.old command.now }
        ensures performs { IfOk result (TakesCut calls command.now self.old self.new) }
        ensures centres { length self.new.centres ≡ length self.old.centres }
    {
        match command.node() {
            NodeName::Udc => self.cut_update(calls, image, command),
            NodeName::Centre(centre) => self.cut_centre(centre, calls, image, command),
        }
    }

    /// The Update Centre is lost within a command to it. The seats of the editors and the ends that send down are new.
    fn cut_update(&mut self, calls: u8, image: u8, command: &Storing) -> Result<Outcome, AllocError>
        requires possible { IsPossibleStoring self.old command.now }
        requires its { node_of command.now ≡ Udc }
        ensures performs { IfOk result (TakesCut calls command.now self.old self.new) }
        ensures centres { length self.new.centres ≡ length self.old.centres }
    {
        let request = self.update_request(command);
        let alloc = *self.centres.allocator();
        let cut = stop(&mut self.update, alloc, request, calls, image)?;
        self.seats = new_seats();
        self.links.renew_down();
        Ok(Outcome::cut(cut))
    }

    /// A centre is lost within a command to it. Its calls are over, and its end, which sends items up, is new.
    fn cut_centre(
        &mut self,
        centre: u8,
        calls: u8,
        image: u8,
        command: &Storing,
    ) -> Result<Outcome, AllocError>
        requires possible { IsPossibleStoring self.old command.now }
        requires its { node_of command.now ≡ Centre centre }
        ensures performs { IfOk result (TakesCut calls command.now self.old self.new) }
        ensures centres { length self.new.centres ≡ length self.old.centres }
    {
        a_centre_shows_what_the_list_shows();
        letters_wait_by_places();
        let request = self.centre_request(command);
        let alloc = *self.centres.allocator();
        let cut = self.centres[centre as usize].stop(alloc, request, calls, image)?;
        self.links.renew_up(centre);
        Ok(Outcome::cut(cut))
    }
}
