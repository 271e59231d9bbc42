// The words of the libraries; nothing runs here.

#![tactic(auto)]
