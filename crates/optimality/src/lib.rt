// Theory alone: the plans of a finished tableau, and settling over tableaux.

#![tactic(auto)]
