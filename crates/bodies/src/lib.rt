// What the judgement of packets comes to over whole bodies.
#![tactic(auto)]

ghost use Rattle.std.specs.Prelude.{◌≡◌, true};
ghost use Rattle.bodies.specs.Laws.{AcceptsExactlyBodies, FaultsWhereNoBodyGoesOn, GoesOn, LimitAtThe256thHeader};

// Always true; a call, since a law is proved where a contract names it. Its contract holds the laws of judging the packets of a
// body one by one: accepted are exactly the bodies, a packet is refused as soon as no body goes on with it, and the limit on headers
// is met by the one that would complete the 256th.
#[tactic(auto, using(crate::proofs::Accepting::accepts_exactly_bodies, crate::proofs::Reaching::faults_where_no_body_goes_on))]
pub fn bodies_are_judged_right() -> bool
    ensures answer { result ≡ true }
    ensures accepts_exactly_bodies { AcceptsExactlyBodies }
    ensures faults_where_no_body_goes_on { FaultsWhereNoBodyGoesOn }
    ensures goes_on { GoesOn }
    ensures limit_at_the_256th_header { LimitAtThe256thHeader }
{
    true
}
