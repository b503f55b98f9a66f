ghost use Rattle.std.specs.Prelude.{◌≡◌, ◌≤◌};
ghost use Rattle.pv_edits.specs.Taken.{IsCentre};
ghost use Rattle.pv_link.specs.Sending.{new_end};
ghost use Rattle.pv_ports.specs.Cargo.{WentThrough, HasBrought};
ghost use Rattle.pv_ports.specs.Outcomes.{HasRoundCause, HasMemory, HaveSeenTold, DisksHeld, NoAskFailed};
ghost use Rattle.pv_ports.specs.Rights.{HoldRightPackets};
ghost use Rattle.pv_ports.specs.Round.{IsRound, round_stop};

use crate::parcel::{DownParcel, UpParcel};
use crate::round::Hand;
use crate::round_end::RoundEnd;
use crate::trip::Trip;
use pv_edits::Record;
use pv_group::{GroupRun, Live};
use pv_irc::{CentreRecord, IrcRules};
use pv_live::{Pass, Run};
use pv_node::Rules;
use pv_outside::{Disk, Link, MAX_PACKET};
use pv_packet::a_packet_is_read_as_it_is_spelled;
use pv_udc::UdcRules;
use std::marker::Model;
use std::sync::Wait;

/// What carries records down to a centre and items up from it: a pass of the Update Centre, a pass of the centre, and
/// the two sending ends. Its buffers are as long as a packet can be, so that a round allocates nothing.
#[derive(Drop)]
pub struct Carrier<const C: u8, U: Run<Record>, N: Run<CentreRecord>> {
    hand: Hand<C, U, N>,
}

impl<const C: u8, U: Run<Record>, N: Run<CentreRecord>> Model for Carrier<C, U, N> {
    ghost use Rattle.pv_ports.specs.Round.{CarrierState};

    ghost Value = { CarrierState };

    ghost view = { λ c. record {
      udc = c.hand.udc;
      centre = c.hand.centre;
      sending = c.hand.trip.sending;
      posting = c.hand.trip.posting;
    } };
}

impl<const C: u8, U: Run<Record>, N: Run<CentreRecord>> Carrier<C, U, N> {
    /// A carrier of these passes, before its first round. There can be a centre of its number.
    pub fn new(udc: Pass<UdcRules, U>, centre: Pass<IrcRules<C>, N>) -> Carrier<C, U, N>
        requires { IsCentre C }
        ensures { result ≡ record { udc = udc; centre = centre; sending = new_end; posting = new_end } }
    {
        Carrier {
            hand: Hand {
                udc,
                centre,
                down: DownParcel::new(),
                up: UpParcel::new(),
                trip: Trip::new(),
                bytes: [0; MAX_PACKET],
            },
        }
    }

    /// The passes.
    pub fn into_passes(self) -> (Pass<UdcRules, U>, Pass<IrcRules<C>, N>)
        ensures udc { result.0 ≡ self.udc }
        ensures centre { result.1 ≡ self.centre }
    {
        let Carrier { hand } = self;
        let Hand {
            udc,
            centre,
            down: _,
            up: _,
            trip: _,
            bytes: _,
        } = hand;
        (udc, centre)
    }
}

impl<const C: u8, U: GroupRun<Record>, N: GroupRun<CentreRecord>> Carrier<C, U, N> {
    /// One round: looks at both nodes, gives the links what goes next, takes what has come, up to two packets on each
    /// link, and has it stored and acknowledged.
    pub fn carry_round<D: Disk, H: Wait + Drop, L: Link, W: Wait>(
        &mut self,
        rt: &W,
        udc: &Live<UdcRules, D, U, H>,
        centre: &Live<IrcRules<C>, D, N, H>,
        down: &mut L,
        up: &mut L,
    ) -> RoundEnd<D>
        ensures round { IsRound ⟦<UdcRules as Rules>⟧ ⟦<IrcRules<C> as Rules>⟧ ⟦<L as Link>⟧
            U.limits N.limits U.opening N.opening C self.old down.old up.old self.new down.new up.new
            (round_stop result) }

        // Each end has its cause.
        ensures cause { HasRoundCause ⟦<UdcRules as Rules>⟧ ⟦<IrcRules<C> as Rules>⟧ ⟦<L as Link>⟧
            U.limits N.limits U.opening N.opening C self.old down.old up.old self.new down.new up.new
            (round_stop result) }

        // Packets stay right: if all that the links may hold are right before the round, they are right after it.
        ensures right { HoldRightPackets ⟦<L as Link>⟧ U.opening N.opening C self.old.udc self.old.centre
            down.old up.old
            → HoldRightPackets ⟦<L as Link>⟧ U.opening N.opening C self.new.udc self.new.centre down.new
            up.new }

        // A round that went to its end has given and taken what its links count. What came and was due is
        // stored. If all packets that the links may hold are right before the round, so is each that came:
        // the centre was asked for the Update Centre's records alone, and the Update Centre for the
        // centre's items.
        ensures carried { WentThrough (round_stop result) → HasBrought ⟦<L as Link>⟧ N.limits U.opening
            N.opening C self.old down.old up.old self.new down.new up.new }

        // Unless memory ran out, the passes have seen what was stored for them. Unless a disk's call failed, none
        // of their asks did.
        ensures seen { HasMemory (round_stop result) → HaveSeenTold U.opening N.opening C self.old self.new }
        ensures unfailed { DisksHeld (round_stop result) → NoAskFailed self.old self.new }
    {
        a_packet_is_read_as_it_is_spelled();
        self.make_round(rt, udc, centre, down, up)
    }

    /// The round itself.
    fn make_round<D: Disk, H: Wait + Drop, L: Link, W: Wait>(
        &mut self,
        rt: &W,
        udc: &Live<UdcRules, D, U, H>,
        centre: &Live<IrcRules<C>, D, N, H>,
        down: &mut L,
        up: &mut L,
    ) -> RoundEnd<D>
        ensures { IsRound ⟦<UdcRules as Rules>⟧ ⟦<IrcRules<C> as Rules>⟧ ⟦<L as Link>⟧
            U.limits N.limits U.opening N.opening C self.old down.old up.old self.new down.new up.new
            (round_stop result) }
    {
        self.hand.trip.begin();
        self.hand.look_down(rt);
        self.hand.look_up(rt);
        let stop = self.hand.carry(rt, udc, centre, down, up);
        self.hand.trip.ending(stop)
    }
}
