// No code: the refusals of every call as the documents' tables give them, a list of numbers and of when each is given, and the theorem that each call answers
// the first that applies. It speaks of the definitions that the calls' statements cite.
#![tactic(auto)]
