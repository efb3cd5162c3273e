mod report;
mod script;
