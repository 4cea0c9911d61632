// The worked cases, tried through the call that the program makes.
#![tactic(auto)]

#[cfg(test)]
mod tests;
