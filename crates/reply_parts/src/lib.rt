// The laws of the parts in which the code takes a frame apart (`Parts` of device): they give the reply, the output and the memory of the
// whole transaction. No code.
#![tactic(auto)]
