ghost use Rattle.std.specs.Prelude.{◌≡◌, ◌<◌, Option, length, IfSome};
ghost use Rattle.pv_words.specs.Parts.{Exactly};
ghost use Rattle.pv_editor.specs.Lines.{IsLine};
ghost use Rattle.pv_editor.specs.declared.line.EditLine.{EditLine};
ghost use Rattle.pv_irc.specs.Deciding.{IsCentreRequest};
ghost use Rattle.pv_udc.specs.Requests.{IsRequest};
ghost use Rattle.pv_account.specs.declared.account.TheConstants.{MAX_CENTRES};
ghost use Rattle.pv_network.specs.declared.event.TheConstants.{EDITORS};
ghost use Rattle.pv_network.specs.Cutting.{request_of_edit, request_in, item_request, item_request_at, apply_request, record_request_at, update_request, centre_request, IsSaid};
ghost use Rattle.pv_network.specs.Editing.{seed_request, step_of_line};
ghost use Rattle.pv_network.specs.Standing.{StandsFor, IsPossibleStoring};
ghost use Rattle.pv_network.specs.World.{World};

use crate::network::Network;
use crate::storing::Storing;
use pv_editor::EditStep;
use pv_irc::IrcRequest;
use pv_packet::Packet;
use pv_page::FrameName;
use pv_traffic::Way;
use pv_udc::UdcRequest;
use pv_verdicts::within;

impl Network {
    /// What a command asks of the Update Centre. `None` if it asks nothing.
    pub(super) fn update_request(&self, command: &Storing) -> Option<UdcRequest>
        requires { IsPossibleStoring self.now command.now }
        ensures within { IfSome result IsRequest }
        ensures request { (said : Option EditLine) × IsSaid command.now said
            × ((w : World) → StandsFor self.now w → result ≡ update_request w command.now said) }
    {
        match command {
            Storing::Seed { name, row } => Some(self.seed_request(*name, row)),
            Storing::Edit { port, line } => self.line_request(*port as usize, line.bytes()),
            Storing::Back { centre, index } => self.item_request(*centre, *index),
            Storing::Store { .. } => None,
            Storing::Deliver { .. } => None,
        }
    }

    /// What a seed asks of it.
    fn seed_request(&self, name: FrameName, row: &[u8; 40]) -> UdcRequest
        ensures within { IsRequest result }
        ensures request { (w : World) → StandsFor self.now w
            → result ≡ request_of_edit (seed_request w name row.now) }
    {
        let (editor, q, wish) = self.seeding(name, row);
        within(editor, q, &wish);
        UdcRequest::Edit { editor, q, wish }
    }

    /// What an editor's line at a port asks of it. `None` if the line is no request. The seat stays as it is.
    fn line_request(&self, port: usize, line: &[u8]) -> Option<UdcRequest>
        requires { port < EDITORS }
        ensures within { IfSome result IsRequest }
        ensures request { (said : Option EditLine) × Exactly (IsLine line.now) said
            × ((w : World) → StandsFor self.now w → result ≡ request_in (step_of_line w port said).1) }
    {
        let mut seat = self.seats[port];
        request_in(seat.line(line, self.update.state().base()))
    }

    /// What a packet of a centre asks of it. `None` if there is no such packet, or it has no item.
    fn item_request(&self, centre: u8, index: u64) -> Option<UdcRequest>
        requires { centre < length self.now.centres }
        ensures within { IfSome result IsRequest }
        ensures request { (w : World) → StandsFor self.now w → result ≡ item_request_at w centre index }
    {
        self.links.within();
        match self.links.packet(Way::Up, centre, index) {
            Some(packet) => item_in(centre, packet),
            None => None,
        }
    }

    /// What a command asks of a centre. `None` if it asks nothing.
    pub(super) fn centre_request(&self, command: &Storing) -> Option<IrcRequest>
        requires { IsPossibleStoring self.now command.now }
        ensures within { IfSome result IsCentreRequest }
        ensures request { (w : World) → StandsFor self.now w → result ≡ centre_request w command.now }
    {
        match command {
            Storing::Seed { .. } => None,
            Storing::Edit { .. } => None,
            Storing::Store { centre, port } => self.centres[*centre as usize].request(
                *port as usize,
            ),
            Storing::Deliver { centre, index } => self.record_request(*centre, *index),
            Storing::Back { .. } => None,
        }
    }

    /// What a packet for a centre asks of it. `None` if there is no such packet, or it has no record.
    fn record_request(&self, centre: u8, index: u64) -> Option<IrcRequest>
        requires { centre < length self.now.centres }
        ensures within { IfSome result IsCentreRequest }
        ensures request { (w : World) → StandsFor self.now w → result ≡ record_request_at w centre index }
    {
        match self.links.packet(Way::Down, centre, index) {
            Some(packet) => record_in(packet),
            None => None,
        }
    }
}

/// The request of a step of an editor's seat. `None` if it is none.
fn request_in(step: EditStep) -> Option<UdcRequest>
    ensures within { IfSome result IsRequest }
    ensures request { result ≡ request_in step }
{
    match step {
        EditStep::Ask { editor, q, wish } => {
            within(editor, q, &wish);
            Some(UdcRequest::Edit { editor, q, wish })
        }
        EditStep::Say(_) => None,
        EditStep::Responses { .. } => None,
        EditStep::Close => None,
    }
}

/// The request that takes up the item of a centre's packet. `None` if the packet has none.
fn item_in(centre: u8, packet: Packet) -> Option<UdcRequest>
    requires { centre < MAX_CENTRES }
    ensures within { IfSome result IsRequest }
    ensures request { result ≡ item_request centre packet }
{
    match packet {
        Packet::Up { number, item, .. } => {
            item.within();
            Some(UdcRequest::TakeUp {
                centre,
                k: number,
                item,
            })
        }
        Packet::Down { .. } => None,
        Packet::DownHeard { .. } => None,
        Packet::UpHeard { .. } => None,
    }
}

/// The request that applies the record of a packet. `None` if the packet has none.
fn record_in(packet: Packet) -> Option<IrcRequest>
    ensures within { IfSome result IsCentreRequest }
    ensures request { result ≡ apply_request packet }
{
    match packet {
        Packet::Down { number, rec, .. } => {
            rec.within();
            Some(IrcRequest::Apply { n: number, rec })
        }
        Packet::Up { .. } => None,
        Packet::DownHeard { .. } => None,
        Packet::UpHeard { .. } => None,
    }
}
