//! Tests of links in memory and over sockets, of someone at a socket who is served, and of what consoles show in any parts. Who may
//! log in, and what a server makes of bytes are cases of run_cases.
#![tactic(auto)]

#[cfg(test)]
mod links;
#[cfg(test)]
mod served;
#[cfg(test)]
mod shown;
