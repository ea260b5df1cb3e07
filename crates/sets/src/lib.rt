// The laws of clause sets that the diagrams rest on: which clauses an operation's set has,
// that each operation keeps the one form of a set, and that sets with the same clauses are equal.
#![tactic(auto)]

ghost use Rattle.sets.specs.Formed.{FormedStands};
ghost use Rattle.sets.specs.Laws.{UnionMembers, LackingMembers, HoldingMembers, OccursCounted, TakenOutMembers, AssignedMembers, FormsStay, OneForm, SidesMake, FewMade, ClauseMembers};

pub fn members_stand()
    ensures union { UnionMembers }
    ensures lacking { LackingMembers }
    ensures holding { HoldingMembers }
    ensures counted { OccursCounted }
    ensures taken_out { TakenOutMembers }
    ensures assigned { AssignedMembers }
    ensures clause { ClauseMembers }
{}

pub fn forms_stand()
    ensures stay { FormsStay }
    ensures one { OneForm }
    ensures sides { SidesMake }
    ensures few { FewMade }
{}

// Clauses that are stored one after the other make the set of them, in its one form.
pub fn formed_stands()
    ensures { FormedStands }
{}
