// No code. Laws of the values: a full capture, set in a member with as many queues and the same device features, is accepted,
// and a capture of that member gives the same bytes.
#![tactic(auto)]
