// Nothing to run: the theorem of the whole way, from the designer's text to the knife, is in proofs/WholeWay.antt, and what it says in specs/.
#![tactic(auto)]
