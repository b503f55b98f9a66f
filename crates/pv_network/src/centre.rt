ghost use Rattle.std.specs.Prelude.{◌≡◌, ℕ, true, false, ◌<◌, ◌≤◌, Ok, length, option_copied, option_map, slice_get, IfOk, IfSome, OnErr};
ghost use Rattle.pv_charge.specs.declared.line.TheConstants.{LAST_MOMENT};
ghost use Rattle.pv_frame.specs.Errors.{IsValid};
ghost use Rattle.pv_edits.specs.Edits.{frame_at};
ghost use Rattle.pv_irc.specs.Deciding.{IsCentreRequest};
ghost use Rattle.pv_irc.specs.History.{state_count};
ghost use Rattle.pv_udc.specs.EditList.{empty_list};
ghost use Rattle.pv_account.specs.declared.account.TheConstants.{MAX_CENTRES};
ghost use Rattle.pv_network.specs.declared.event.TheConstants.{PORTS};
ghost use Rattle.pv_network.specs.declared.outcome.Outcome.TheVariants as outcomes;
ghost use Rattle.pv_network.specs.Bills.{bill_answer, stored_lines};
ghost use Rattle.pv_network.specs.Calls.{call_among, call_in, wish_at, dial_at, hang_at, store_at, show_at};
ghost use Rattle.pv_network.specs.Crashing.{crash_at};
ghost use Rattle.pv_network.specs.Cutting.{wish_of, record_for, Restarts, RestartsNode};
ghost use Rattle.pv_network.specs.Keying.{keys_refusal};
ghost use Rattle.pv_wishes.specs.Wishes.{request_for};
ghost use Rattle.pv_network.specs.Centre.{new_centre, calls_of, holdings_of, arrival_by, Asked, Applies, CentreStands, AreNew, Comes, Pressed};

use crate::arrival::Arrival;
use crate::bills::stored_lines;
use crate::calls::Calls;
use crate::outcome::Outcome;
use pv_edits::DownRecord;
use pv_frame::Frame;
use pv_irc::{IrcReply, IrcRequest};
use pv_nodes::{CentreNode, Cut};
use pv_outside::Limits;
use pv_page::FrameName;
use pv_post::Item;
use pv_session::Wish;
use pv_wishes::{paid_by, request_of};
use std::alloc::{AllocError, Global};
use std::marker::Model;

/// The number of the image of a disk that is what the disk reads as. Between events nothing is on its way to a disk.
pub(crate) const AS_IT_READS: u8 = 1;

/// A retrieval centre: its node, which has what it has applied of the edit list and counts the log-ons, and its calls.
#[derive(Drop)]
pub struct Centre {
    node: CentreNode,
    calls: Calls,
}

impl Model for Centre {
    ghost use Rattle.pv_network.specs.Centre.{Held};

    ghost Value = { Held };

    ghost view = { λ c. record { node = c.node; ports = c.calls } };
}

impl Centre {
    /// The centre of a number, that nothing has reached, with these limits.
    pub(crate) fn open(alloc: Global, number: u8, limits: Limits) -> Result<Centre, AllocError>
        requires { number < MAX_CENTRES }
        ensures { IfOk result (λ c. CentreStands (empty_list limits) number c new_centre) }
    {
        Ok(Centre {
            node: CentreNode::open(alloc, number, limits)?,
            calls: Calls::open(alloc)?,
        })
    }

    /// How many records of the edit list it has applied.
    pub(crate) fn applied(&self) -> u64
        ensures { result ≡ self.now.node.state.applied }
    {
        self.node.state().applied()
    }

    /// How many items it has kept for its callers.
    pub(crate) fn items(&self) -> u64
        ensures { result ≡ length self.now.node.state.items }
    {
        self.node.state().items()
    }

    /// The item of a number. `None` exactly from the count of items on.
    pub(crate) fn item_at(&self, number: u64) -> Option<&Item>
        ensures { option_copied result ≡ slice_get self.now.node.state.items number }
    {
        self.node.state().item_at(number)
    }

    /// How many records it has in all.
    pub(crate) fn count(&self) -> u64
        ensures { result ≡ state_count self.now.node.state }
    {
        self.node.count()
    }

    /// The charge lines that it has stored, as those of the centre of this number. The only error is that memory ran out.
    pub(crate) fn lines(&self, alloc: Global, number: u8) -> Result<Outcome, AllocError>
        ensures { IfOk result
            (λ outcome. outcome ≡ bill_answer (stored_lines number self.now.node.state.items)) }
    {
        // It has no more items than it may have records.
        let _count = self.node.count();
        stored_lines(alloc, number, self.node.state())
    }

    /// The frame that a name has in the records that came down whole.
    pub(crate) fn frame(&self, name: FrameName) -> Option<&Frame>
        ensures valid { IfSome result (λ frame. IsValid frame.now) }
        ensures frame { option_copied result ≡ frame_at self.now.node.state.edits name }
    {
        self.node.state().base().get(name)
    }

    /// Asks the node: the reply, or the count of the records of a full centre.
    fn ask(&mut self, request: &IrcRequest) -> Result<IrcReply, u64>
        requires { IsCentreRequest request.now }
        ensures { Asked self.old self.new request.now result }
    {
        match self.node.ask(request) {
            Ok(told) => Ok(told.reply),
            Err(count) => Err(count),
        }
    }

    /// Asks the node to apply what came down under a number, and returns what it did.
    pub(crate) fn apply(&mut self, number: u64, rec: &DownRecord) -> Arrival
        ensures { Applies self.old self.new number rec.now result }
    {
        rec.within();
        arrival_by(self.ask(&IrcRequest::Apply {
            n: number,
            rec: *rec,
        }))
    }

    /// The centre is lost, and opened again from its disk. Its calls are over. The only error is that memory ran
    /// out for that, and then the centre is as it was.
    pub(crate) fn crash(&mut self, alloc: Global) -> Result<Outcome, AllocError>
        ensures ok { IfOk result (λ outcome. Comes self.old self.new outcome
            (crash_at (state_count self.old.node.state) (calls_of self.old))) }
        ensures err { OnErr result (self.new ≡ self.old) }
    {
        self.node.crash(alloc, AS_IT_READS)?;
        self.calls.end_all();
        let count = self.node.count();
        Ok(Outcome::Crashed { count })
    }

    /// The centre is lost within a request to its node, or while it is idle, and opened again from this image of its disk.
    /// Its calls are over. Returns what became of the record that was to be stored. The only error is that memory ran out
    /// for that, and then the centre is as it was.
    pub(crate) fn stop(
        &mut self,
        alloc: Global,
        request: Option<IrcRequest>,
        calls: u8,
        image: u8,
    ) -> Result<Cut, AllocError>
        requires { IfSome request IsCentreRequest }
        ensures ok { IfOk result
            (Restarts self.old self.new calls (record_for self.old.node.state request)) }
        ensures err { OnErr result (self.new ≡ self.old) }
    {
        let cut = self.stop_node(alloc, request, calls, image)?;
        self.calls.end_all();
        Ok(cut)
    }

    /// Its node is lost within a request, or while it is idle, and opened again from this image of its disk.
    fn stop_node(
        &mut self,
        alloc: Global,
        request: Option<IrcRequest>,
        calls: u8,
        image: u8,
    ) -> Result<Cut, AllocError>
        requires { IfSome request IsCentreRequest }
        ensures ok { IfOk result
            (RestartsNode self.old self.new calls (record_for self.old.node.state request)) }
        ensures err { OnErr result (self.new ≡ self.old) }
    {
        match request {
            Some(request) => self.node.cut(alloc, &request, calls, image),
            None => {
                self.node.crash(alloc, image)?;
                Ok(Cut::NotStored)
            }
        }
    }

    /// Begins a call at a port.
    pub(crate) fn dial(&mut self, port: usize) -> Outcome
        requires { port < PORTS }
        ensures { Comes self.old self.new result
            (dial_at (calls_of self.old) port (call_in (calls_of self.old) port)) }
    {
        self.calls.dial(port)
    }

    /// Why no key is taken at a port. `None` if keys are taken there.
    pub(crate) fn refusal(&self, port: usize) -> Option<Outcome>
        requires { port < PORTS }
        ensures { result ≡ keys_refusal (call_in (calls_of self.now) port) }
    {
        self.calls.refusal(port)
    }

    /// Takes a key at a port at a moment.
    pub(crate) fn press(&mut self, port: usize, key: u8, moment: u32) -> Outcome
        requires port { port < PORTS }
        requires moment { moment ≤ LAST_MOMENT }
        ensures { Pressed self.old self.new port key moment result }
    {
        let account = self.calls.account(port);
        self.calls
            .press(port, key, &self.node.state().sight(account), moment)
    }

    /// Takes a key at a port if nothing comes of it but that the caller's seat waits for more, and returns whether it did. `false`
    /// if more comes of it, and then nothing has changed.
    pub(crate) fn take_quietly(&mut self, port: usize, key: u8) -> bool
        requires { port < PORTS }
        ensures pressed { result ≡ true → (moment : ℕ)
            → Pressed self.old self.new port key moment outcomes.Quiet }
        ensures same { result ≡ false → self.new ≡ self.old }
    {
        self.calls.take_quietly(port, key)
    }

    /// Stores what the call at a port owes, unless the centre is full. A full centre has no room for a record, but the
    /// removal of a letter that does not wait needs none.
    pub(crate) fn store(&mut self, port: usize) -> Outcome
        requires { port < PORTS }
        ensures { Comes self.old self.new result (store_at (holdings_of self.old.node.state)
            (calls_of self.old) port (call_in (calls_of self.old) port)) }
    {
        match self.calls.wish(port) {
            Ok(wish) => self.store_wish(port, wish),
            Err(outcome) => outcome,
        }
    }

    /// What its node is asked for what the call at a port is to have stored. `None` if that is nothing.
    pub(crate) fn request(&self, port: usize) -> Option<IrcRequest>
        requires { port < PORTS }
        ensures within { IfSome result IsCentreRequest }
        ensures request { result
            ≡ option_map request_for (wish_of (call_in (calls_of self.now) port)) }
    {
        let wish = self.calls.owed(port)?;
        Some(request_of(wish))
    }

    /// Stores what the call at a port owes, a wish, unless the centre is full.
    fn store_wish(&mut self, port: usize, wish: Wish) -> Outcome
        requires port { port < PORTS }
        requires owed { wish_at (call_among self.old.ports port) ≡ Ok wish }
        ensures { Comes self.old self.new result (store_at (holdings_of self.old.node.state)
            (calls_of self.old) port (call_in (calls_of self.old) port)) }
    {
        match self.ask(&request_of(wish)) {
            Ok(reply) => self.calls.note(port, paid_by(&reply)),
            Err(count) => self.calls.turn_away(port, count),
        }
    }

    /// Shows the caller at a port what his call was stored for.
    pub(crate) fn show(&mut self, port: usize) -> Outcome
        requires { port < PORTS }
        ensures { Comes self.old self.new result
            (show_at (calls_of self.old) port (call_in (calls_of self.old) port)) }
    {
        self.calls.show(port)
    }

    /// Ends the call at a port.
    pub(crate) fn hang(&mut self, port: usize) -> Outcome
        requires { port < PORTS }
        ensures { Comes self.old self.new result
            (hang_at (calls_of self.old) port (call_in (calls_of self.old) port)) }
    {
        self.calls.hang(port)
    }
}

/// What a centre did with a record, by its node's reply.
fn arrival_by(reply: Result<IrcReply, u64>) -> Arrival
    ensures { result ≡ arrival_by reply }
{
    match reply {
        Ok(IrcReply::Applied) => Arrival::Taken,
        Ok(IrcReply::Old(_)) => Arrival::Old,
        // There is room for each record of the list, so that no other reply comes.
        Ok(_) => Arrival::Early,
        Err(_) => Arrival::Full,
    }
}

/// This many centres that nothing has reached, numbered from 0, with these limits for each.
#[tactic(auto, using(crate::proofs::Standing::none_new))]
pub(crate) fn open_centres(
    alloc: Global,
    count: u8,
    limits: Limits,
) -> Result<Vec<Centre>, AllocError>
    requires { count ≤ MAX_CENTRES }
    ensures { IfOk result (λ centres. AreNew limits count centres.items) }
{
    let mut centres = Vec::with_capacity(alloc, count as usize)?;
    for number in 0..count {
        centres.push(Centre::open(alloc, number, limits)?)?;
    }
    Ok(centres)
}
