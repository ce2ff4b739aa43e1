// What a run of Steps comes to, in terms of the grammar of bodies.
#![tactic(auto)]

ghost use Rattle.std.specs.Prelude.{◌≡◌, true};
ghost use Rattle.runs.specs.Laws.{EndsCleanExactlyForBodies, FaultsExactlyWhereNoBodyGoesOn, LimitExactlyAtThe256thHeader};

// Always true; a call, since a law is proved where a contract names it. Its contract holds the laws of a run of Steps from the
// bytes of a body's beginning on: it ends clean exactly for the bodies with at most 255 headers, and then tells their events; a
// packet faults exactly where no body goes on with it; and the limit is met exactly where a packet would complete the 256th header.
pub fn runs_follow_the_grammar() -> bool
    ensures answer { result ≡ true }
    ensures ends_clean_exactly_for_bodies { EndsCleanExactlyForBodies }
    ensures faults_exactly_where_no_body_goes_on { FaultsExactlyWhereNoBodyGoesOn }
    ensures limit_exactly_at_the_256th_header { LimitExactlyAtThe256thHeader }
{
    true
}
