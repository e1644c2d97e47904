// What a run over the memories means, from the bounded machine's run on the state that they hold: definitions and laws only.
#![tactic(auto)]
