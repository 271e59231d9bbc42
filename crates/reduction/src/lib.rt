// Theory alone: what the problem behind a sheet says of the sheet.

#![tactic(auto)]
