// No code: the strings of X11R5, what they read as and how they are written.
#![tactic(auto)]
